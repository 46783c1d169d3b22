ghost use Rattle.std.specs.Prelude.{◌≡◌, ◌^◌, ◌<◌, ◌↔◌, IsTrue, IsSome, IfSome};
ghost use Rattle.n2k_id.specs.Identifier.{CanJoin, IsLaidOut, has_destination, group_of, identifier_of, parts_of};

use crate::address::ALL;
use crate::identifier_parts::Parts;

/// The first number that is no 29-bit identifier.
pub(crate) const IDENTIFIER_END: u32 = 1 << 29;

/// The parts of an identifier. None exactly where it has more than 29 bits.
///
/// From its top an identifier holds the priority (3 bits), the extended data page (1), the data page
/// (1), PF (8), PS (8) and the source (8). Where PF is below 240, PS is the destination and the low
/// byte of the parameter group number is 0; else PS belongs to the number and the destination is 255
/// (ISO 11783-3, 5.2).
#[tactic(auto, using(crate::proofs::PartsLemmas::parts_of_laid_out))]
pub fn parts(id: u32) -> Option<Parts>
    ensures some { IsSome result ↔ (id < 2 ^ 29) }
    ensures parts { IfSome result (λ p. p ≡ parts_of id) }
    ensures layout { IfSome result (IsLaidOut id) }
{
    if id >= IDENTIFIER_END {
        return None;
    }
    Some(split(id))
}

/// The identifier of these parts: `parts` gives them back. None exactly where no identifier has them:
/// the priority is above 7, the parameter group number has more than 18 bits, a number with PF below
/// 240 has a low byte other than 0, or a number with PF of 240 or more goes to an address other than
/// 255.
#[tactic(auto, using(crate::proofs::PartsLemmas::parts_of_identifier_of))]
pub fn join(p: Parts) -> Option<u32>
    ensures some { IsSome result ↔ CanJoin p }
    ensures identifier { IfSome result (λ id. id ≡ identifier_of p) }
    ensures inverse { IfSome result (λ id. (id < 2 ^ 29) × (parts_of id ≡ p)) }
{
    if !can_join(&p) {
        return None;
    }
    Some(number(&p))
}

#[tactic(auto, unfolding(crate::specs::Identifier::parts_of, crate::specs::Identifier::parts_at))]
fn split(id: u32) -> Parts
    requires { id < 2 ^ 29 }
    ensures { result ≡ parts_of id }
{
    let priority = (id >> 26) as u8;
    let source = (id & 0xFF) as u8;
    let group = (id >> 8) & 0x3_FFFF;
    if has_destination(group) {
        let destination = group & 0xFF;
        Parts {
            priority,
            pgn: group - destination,
            destination: destination as u8,
            source,
        }
    } else {
        Parts {
            priority,
            pgn: group,
            destination: ALL,
            source,
        }
    }
}

#[tactic(auto, unfolding(crate::specs::Identifier::identifier_of))]
fn number(p: &Parts) -> u32
    requires { CanJoin p.now }
    ensures number { result ≡ identifier_of p.now }
    ensures fits { result < 2 ^ 29 }
{
    (u32::from(p.priority) << 26) + (group(p) << 8) + u32::from(p.source)
}

/// Whether PS is a destination.
#[tactic(auto, unfolding(crate::specs::Identifier::has_destination))]
fn has_destination(group: u32) -> bool
    ensures { result ≡ has_destination group }
{
    (group >> 8) & 0xFF < 240
}

/// The group of these parts: the parameter group number, with the destination as PS where it has one.
#[tactic(auto, using(crate::proofs::PartsLemmas::group_of_fits), unfolding(crate::specs::Identifier::group_of))]
fn group(p: &Parts) -> u32
    requires { CanJoin p.now }
    ensures group { result ≡ group_of p.now }
    ensures fits { result < 2 ^ 18 }
{
    if has_destination(p.pgn) {
        p.pgn + u32::from(p.destination)
    } else {
        p.pgn
    }
}

/// Whether an identifier can have these parts.
fn can_join(p: &Parts) -> bool
    ensures { IsTrue result ↔ CanJoin p.now }
{
    let fits = p.priority < 8 && p.pgn < 1 << 18;
    if has_destination(p.pgn) {
        fits && p.pgn & 0xFF == 0
    } else {
        fits && p.destination == ALL
    }
}
