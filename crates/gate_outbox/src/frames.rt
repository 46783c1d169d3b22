//! The frames by which the gateway itself speaks on the bus.
ghost use Rattle.std.specs.Prelude.{◌≡◌, ◌^◌, ◌<◌, ◌≤◌, [], ◌∷◌, length, Some};
ghost use Rattle.n2k_id.specs.Frame.{IsFrame, bus_frame};
ghost use Rattle.n2k_id.specs.Identifier.{CanJoin};
ghost use Rattle.iso_transport.specs.Replies.{named_pgn};
ghost use Rattle.gate_events.specs.Emit.{can};
ghost use Rattle.history.specs.Emits.{sent, own_claim, request_for_claims, reply_from};

use iso_transport::{Reply, write_reply};
use n2k_id::address::{ALL, NULL_ADDRESS};
use n2k_id::pgn::{ADDRESS_CLAIMED, CONNECTION_MANAGEMENT, REQUEST};
use n2k_id::{Frame, Name, Parts, join, write_name};

/// The priority of claims and requests, and that of the transport protocol.
const MANAGEMENT_PRIORITY: u8 = 6;

const TRANSPORT_PRIORITY: u8 = 7;

/// A frame with these parts of its identifier, and these data bytes.
pub fn frame_of(parts: Parts, held: &[u8]) -> Frame
    requires parts { CanJoin parts }
    requires fits { length held.now ≤ 8 }
    ensures frame { can (bus_frame result) ≡ sent parts.priority parts.pgn parts.destination parts.source held.now }
    ensures valid { IsFrame result }
{
    Frame::of(join(parts).unwrap(), held).unwrap()
}

/// The claim of the own address by the gateway's NAME; where it has none, that it can claim none (ISO 11783-5).
pub fn own_claim(name: Name, own: Option<u8>) -> Frame
    ensures frame { can (bus_frame result) ≡ own_claim name.0 own }
    ensures valid { IsFrame result }
{
    let parts = Parts {
        priority: MANAGEMENT_PRIORITY,
        pgn: ADDRESS_CLAIMED,
        destination: ALL,
        source: own.unwrap_or(NULL_ADDRESS),
    };
    frame_of(parts, &write_name(name))
}

/// The request for the claims of all (ISO 11783-5).
pub fn request_for_claims(address: u8) -> Frame
    ensures frame { can (bus_frame result) ≡ request_for_claims address }
    ensures valid { IsFrame result }
{
    let parts = Parts {
        priority: MANAGEMENT_PRIORITY,
        pgn: REQUEST,
        destination: ALL,
        source: address,
    };
    frame_of(parts, &[0x00, 0xEE, 0x00])
}

/// A reply of the transport protocol to a sender (ISO 11783-3).
#[tactic(auto, unfolding(n2k_id::specs::Identifier::has_destination))]
pub fn reply_from(own: u8, destination: u8, reply: &Reply) -> Frame
    requires { named_pgn reply.now < 2 ^ 24 }
    ensures frame { can (bus_frame result) ∷ [] ≡ reply_from (Some own) destination reply.now }
    ensures valid { IsFrame result }
{
    let parts = Parts {
        priority: TRANSPORT_PRIORITY,
        pgn: CONNECTION_MANAGEMENT,
        destination,
        source: own,
    };
    frame_of(parts, &write_reply(reply))
}
