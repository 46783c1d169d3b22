//! What a run of pieces is, once for every protocol that sends a message in pieces.
//!
//! A protocol gives `Rules`: which piece opens a run and how many pieces it has, which piece is the next one, which one is a
//! repeat, and how long each may take. From these come the prefixes and the runs among the pieces of one sender, and the laws below.
ghost use Rattle.slot_views.specs.Runs.{Rules};
ghost use Rattle.slot_views.specs.RunLaws.{IsLawful, OneStep, OneSuffix};

/// One more piece, or a later moment, does to the open prefix what the rules say of the pieces accepted so far alone. So it is by
/// rules whose openers are neither the next piece nor a repeat, and by which neither comes after a whole run (`IsLawful`).
pub fn one_step<P>(_pieces: &[P])
    ensures { (rules : Rules P) → IsLawful rules → OneStep rules }
{}

/// Among the pieces of one sender at most one prefix is open, and at most one run ends with the newest piece. So it is by rules
/// whose openers are neither the next piece nor a repeat, and by which neither comes after a whole run (`IsLawful`).
pub fn one_suffix<P>(_pieces: &[P])
    ensures { (rules : Rules P) → IsLawful rules → OneSuffix rules }
{}
