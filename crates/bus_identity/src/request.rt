//! Requests (ISO 11783-3, PGN 59904): bytes 0 to 2 are the parameter group that is asked for, low byte first.

ghost use Rattle.std.specs.Prelude.{◌≡◌, ◌≤◌, ◌↔◌, IsTrue, length};
ghost use Rattle.n2k_id.specs.Pgns.{asked_of};
ghost use Rattle.bus_identity.specs.Requests as requests;

use crate::pgn;
use n2k_id::Parts;
use n2k_id::address::{is_own, is_to};
use n2k_id::pgn::{ADDRESS_CLAIMED, REQUEST};

/// Whether the frame is a request that has to be answered, by the own address.
#[tactic(auto, using(crate::proofs::RequestLemmas::due_tells))]
pub(crate) fn is_due(own: Option<u8>, parts: &Parts, held: &[u8]) -> bool
    ensures value { result ≡ requests.due_by own parts.now held.now }
    ensures exactly { IsTrue result ↔ requests.IsDueBy own parts.now held.now }
{
    concerns(own, parts, held) && is_answered(own, parts.destination, asked_of(held))
}

/// Whether it is a request to all or to the own address, from another one.
fn concerns(own: Option<u8>, parts: &Parts, held: &[u8]) -> bool
    ensures { result ≡ requests.concerns own parts.now held.now }
{
    parts.pgn == REQUEST
        && held.len() >= 3
        && is_to(own, parts.destination)
        && !is_own(own, parts.source)
}

/// Whether what is asked for has an answer: product information and the lists for all, and a refusal for who asks the own address
/// alone. A claim is asked for elsewhere.
fn is_answered(own: Option<u8>, destination: u8, asked: u32) -> bool
    ensures { result ≡ requests.is_answered own destination asked }
{
    asked != ADDRESS_CLAIMED
        && (asked == pgn::PRODUCT_INFORMATION
            || asked == pgn::PGN_LISTS
            || is_own(own, destination))
}

/// What is asked for.
pub(crate) fn asked_of(held: &[u8]) -> u32
    requires { 3 ≤ length held.now }
    ensures { result ≡ asked_of held.now }
{
    u32::from_le_bytes([held[0], held[1], held[2], 0])
}
