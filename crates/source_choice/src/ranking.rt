//! The ranks of the devices that a subject is taken from.
ghost use Rattle.std.specs.Prelude.{◌≡◌, ◌<◌, ◌≤◌, [], length, position, IfSome, None};
ghost use Rattle.n2k_id.specs.Name.{matches};
ghost use Rattle.source_choice.specs.SubjectRules.{is_matched, or_last, place_in, rank_among, rank_of};

use crate::rank::Rank;
use n2k_id::{Name, Pattern};

/// The rank of a NAME where these sources are preferred: the place of the first pattern that matches it; others come after all that are
/// listed, where they are taken. A device that is ignored has none.
///
/// Each of its few callers has a copy of it: it is asked for at each message of a row.
#[inline(always)]
pub fn rank_of(sources: &[Pattern], others: bool, ignored: &[Pattern], name: Name) -> Option<Rank>
    requires { length sources.now ≤ 255 }
    ensures { result ≡ rank_of (record { sources = sources.now; others = others; ignored = ignored.now; timeout = 0 }) name.0 }
{
    if is_matched(ignored, name) {
        None
    } else {
        rank_among(sources, others, name)
    }
}

/// Whether one of the patterns matches the NAME.
#[inline(always)]
fn is_matched(patterns: &[Pattern], name: Name) -> bool
    ensures { result ≡ is_matched patterns.now name.0 }
{
    patterns.iter().any(|pattern| pattern.matches(name))
}

/// The rank of a NAME among the devices that are preferred, and the others.
#[inline(always)]
fn rank_among(sources: &[Pattern], others: bool, name: Name) -> Option<Rank>
    requires { length sources.now ≤ 255 }
    ensures { result ≡ rank_among (record { sources = sources.now; others = others; ignored = []; timeout = 0 }) name.0 }
{
    match place_of(sources, others, name) {
        None => None,
        Some(place) => Some(Rank {
            place,
            name: name.0,
        }),
    }
}

/// The place of the first pattern that matches the NAME, or the one behind all of them where others are taken.
#[tactic(auto, using(crate::proofs::Places::place_is))]
fn place_of(patterns: &[Pattern], others: bool, name: Name) -> Option<u8>
    requires { length patterns.now ≤ 255 }
    ensures { result ≡ place_in others 0 patterns.now name.0 }
{
    match first_match(patterns, name) {
        Some(place) => Some(place as u8),
        None => behind(patterns, others),
    }
}

/// The place behind all patterns, where others are taken.
fn behind(patterns: &[Pattern], others: bool) -> Option<u8>
    requires { length patterns.now ≤ 255 }
    ensures { result ≡ or_last others (length patterns.now) None }
{
    if others {
        Some(patterns.len() as u8)
    } else {
        None
    }
}

/// The place of the first pattern that matches the NAME.
fn first_match(patterns: &[Pattern], name: Name) -> Option<usize>
    ensures place { result ≡ position (λ p. matches p name.0) patterns.now }
    ensures within { IfSome result (λ place. place < length patterns.now) }
{
    patterns.iter().position(|pattern| pattern.matches(name))
}
