//! What is promised of a replay besides. Each law is a function that does nothing, and whose clause is the law.
ghost use Rattle.replaying.specs.LengthLaws.{LongLines};
ghost use Rattle.replaying.specs.Replayed.{EventsAreReplayed};

/// The text of a capture of which no line is refused is all that the gateway with the parts beside it emits at its events, a line each: at
/// each event what the gateway itself emits, its answers, RMC and the reports of ships around, and then what it emits at the command that
/// the event completes.
pub fn events_are_replayed()
    ensures { EventsAreReplayed }
{}

/// A line of a capture of more than 4096 bytes gives rule 2 and nothing else, whatever it holds.
#[tactic(auto, using(crate::proofs::Lengths::long_lines))]
pub fn what_is_too_long_is_told()
    ensures lines { LongLines }
{}
