//! Heading and rate of turn.
//!
//! PGN 127250, vessel heading: SID, heading (u16 at byte 1), deviation (i16 at 3), variation (i16 at
//! 5), and in bits 0-1 of byte 7 the reference, 0 true and 1 magnetic north.
//!
//! PGN 127251, rate of turn: SID, rate (i32 at byte 1).

ghost use Rattle.std.specs.Prelude.{◌≡◌, []};
ghost use Rattle.readings.specs.declared.reading.Reading.TheVariants.{HeadingMagnetic, HeadingTrue, RateOfTurn};
ghost use Rattle.pgn_profile.specs.Profiled.{payload_of, profiled};

use crate::field::{signed, unsigned};
use crate::piece::Piece::{Byte, Bytes, Signed, Unsigned};
use crate::piece::{Payload, append_all};
use crate::profiled::Profiled;
use readings::range::{ANGLE, DEVIATION, RATE_OF_TURN};
use readings::{Reading, bits};

#[inline(always)]
#[tactic(auto, unfolding(crate::specs::Layout::messages))]
pub fn read_heading(payload: &[u8]) -> Profiled
    ensures { result ≡ profiled 127250 payload.now }
{
    if payload.len() < 8 {
        return Profiled::Short;
    }
    match bits(payload[7], 0, 2) {
        0 => Profiled::Reading(Reading::HeadingTrue {
            heading: unsigned(payload, 1, 2, ANGLE),
        }),
        1 => Profiled::Reading(Reading::HeadingMagnetic {
            heading: unsigned(payload, 1, 2, ANGLE),
            deviation: signed(payload, 3, 2, DEVIATION),
            variation: signed(payload, 5, 2, DEVIATION),
        }),
        _ => Profiled::Outside,
    }
}

#[inline(always)]
#[tactic(auto, unfolding(crate::specs::Layout::messages))]
pub fn read_rate_of_turn(payload: &[u8]) -> Profiled
    ensures { result ≡ profiled 127251 payload.now }
{
    if payload.len() < 5 {
        return Profiled::Short;
    }
    Profiled::Reading(Reading::RateOfTurn {
        rate: signed(payload, 1, 4, RATE_OF_TURN),
    })
}

/// The payload of a heading from true north.
pub fn write_true(heading: Option<i64>, out: &mut Payload)
    requires { out.old.items ≡ [] }
    ensures { out.new.items ≡ payload_of (HeadingTrue heading) }
{
    append_all(
        &[
            Byte(0xFF),
            Unsigned(2, heading),
            Bytes(&[0xFF, 0x7F, 0xFF, 0x7F, 0xFC]),
        ],
        out,
    );
}

/// The payload of a heading from magnetic north.
pub fn write_magnetic(
    heading: Option<i64>,
    deviation: Option<i64>,
    variation: Option<i64>,
    out: &mut Payload,
)
    requires { out.old.items ≡ [] }
    ensures { out.new.items ≡ payload_of (HeadingMagnetic heading deviation variation) }
{
    append_all(
        &[
            Byte(0xFF),
            Unsigned(2, heading),
            Signed(2, deviation),
            Signed(2, variation),
            Byte(0xFD),
        ],
        out,
    );
}

/// The payload of a rate of turn.
pub fn write_rate_of_turn(rate: Option<i64>, out: &mut Payload)
    requires { out.old.items ≡ [] }
    ensures { out.new.items ≡ payload_of (RateOfTurn rate) }
{
    append_all(
        &[Byte(0xFF), Signed(4, rate), Bytes(&[0xFF, 0xFF, 0xFF])],
        out,
    );
}
