//! PGN 127245, rudder: instance (byte 0), direction order, angle order, position (i16 at byte 4).
//! Instance 0 is the first rudder, 1 the second, and 255 says that there is only one.

ghost use Rattle.std.specs.Prelude.{◌≡◌, [], None, slice_index};
ghost use Rattle.pgn_profile.specs.Profiled.{payload_of, profiled};
ghost use Rattle.pgn_profile.specs.Selector.{rudder_of};

use crate::field::signed;
use crate::piece::Piece::{Byte, Bytes, Signed};
use crate::piece::{Payload, append_all};
use crate::profiled::Profiled;
use readings::Reading;
use readings::range::RUDDER;

/// A rudder of the ship.
#[derive(Clone, Copy)]
pub enum Rudder {
    /// The only one, or the first of two.
    First,
    Second,
}

impl Rudder {
    /// The instance in the payload of its position.
    fn instance(self) -> u8
        ensures { result ≡ slice_index (payload_of (rudder_of self None)) 0 }
    {
        match self {
            Rudder::First => 0,
            Rudder::Second => 1,
        }
    }
}

#[inline(always)]
#[tactic(auto, unfolding(crate::specs::Layout::messages))]
pub fn read_rudder(payload: &[u8]) -> Profiled
    ensures { result ≡ profiled 127245 payload.now }
{
    if payload.len() < 6 {
        return Profiled::Short;
    }
    let position = signed(payload, 4, 2, RUDDER);
    match payload[0] {
        0 | 255 => Profiled::Reading(Reading::RudderFirst { position }),
        1 => Profiled::Reading(Reading::RudderSecond { position }),
        _ => Profiled::Outside,
    }
}

/// The payload of a rudder's position.
#[tactic(auto, using(crate::proofs::Selected::rudder_payload))]
pub fn write_rudder(rudder: Rudder, position: Option<i64>, out: &mut Payload)
    requires { out.old.items ≡ [] }
    ensures { out.new.items ≡ payload_of (rudder_of rudder position) }
{
    append_all(
        &[
            Byte(rudder.instance()),
            Bytes(&[0xFF, 0xFF, 0x7F]),
            Signed(2, position),
            Bytes(&[0xFF, 0xFF]),
        ],
        out,
    );
}
