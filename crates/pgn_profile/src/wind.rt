//! PGN 130306, wind data: SID, speed (u16 at byte 1), angle (u16 at 3), and in bits 0-2 of byte 5 the
//! reference: 0 true north, 1 magnetic north, 2 apparent, 3 true to the boat's course over ground and
//! 4 true to its course through the water.

ghost use Rattle.std.specs.Prelude.{◌≡◌, [], None, slice_index};
ghost use Rattle.pgn_profile.specs.Profiled.{payload_of, profiled};
ghost use Rattle.pgn_profile.specs.Selector.{wind_of};

use crate::field::unsigned;
use crate::piece::Piece::{Byte, Bytes, Unsigned};
use crate::piece::{Payload, append_all};
use crate::profiled::Profiled;
use readings::range::{ANGLE, SPEED};
use readings::{Reading, bits};

/// A wind by its reference.
#[derive(Clone, Copy)]
pub enum Wind {
    /// As it is felt aboard; the angle is from the bow.
    Apparent,
    /// Relative to ground or water; the angle is from the bow.
    True,
    /// Relative to ground; the angle is from magnetic or true north.
    North { magnetic: bool },
}

impl Wind {
    /// The byte of the reference in a payload, with all bits above it set. Of the two references of a
    /// true wind it is the one to the course over ground.
    fn reference(self) -> u8
        ensures { result ≡ slice_index (payload_of (wind_of self None None)) 5 }
    {
        match self {
            Wind::North { magnetic: false } => 0xF8,
            Wind::North { magnetic: true } => 0xF9,
            Wind::Apparent => 0xFA,
            Wind::True => 0xFB,
        }
    }
}

#[inline(always)]
#[tactic(auto, unfolding(crate::specs::Layout::messages))]
pub fn read_wind(payload: &[u8]) -> Profiled
    ensures { result ≡ profiled 130306 payload.now }
{
    if payload.len() < 6 {
        return Profiled::Short;
    }
    let speed = unsigned(payload, 1, 2, SPEED);
    let angle = unsigned(payload, 3, 2, ANGLE);
    match bits(payload[5], 0, 3) {
        2 => Profiled::Reading(Reading::WindApparent { speed, angle }),
        3 | 4 => Profiled::Reading(Reading::WindTrue { speed, angle }),
        0 => Profiled::Reading(Reading::WindNorth {
            magnetic: false,
            speed,
            angle,
        }),
        1 => Profiled::Reading(Reading::WindNorth {
            magnetic: true,
            speed,
            angle,
        }),
        _ => Profiled::Outside,
    }
}

/// The payload of a wind.
#[tactic(auto, using(crate::proofs::Selected::wind_payload))]
pub fn write(wind: Wind, speed: Option<i64>, angle: Option<i64>, out: &mut Payload)
    requires { out.old.items ≡ [] }
    ensures { out.new.items ≡ payload_of (wind_of wind speed angle) }
{
    append_all(
        &[
            Byte(0xFF),
            Unsigned(2, speed),
            Unsigned(2, angle),
            Byte(wind.reference()),
            Bytes(&[0xFF, 0xFF]),
        ],
        out,
    );
}
