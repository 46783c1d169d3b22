//! Date and time of day.
//!
//! PGN 126992, system time: SID, source, date (u16 at byte 2), time (u32 at 4).
//!
//! PGN 129033, time and date: date (u16 at byte 0), time (u32 at 2), local offset. It is read and
//! never written, and its offset isn't used.

ghost use Rattle.std.specs.Prelude.{◌≡◌, []};
ghost use Rattle.readings.specs.declared.reading.Reading.TheVariants.{Time};
ghost use Rattle.pgn_profile.specs.Profiled.{payload_of, profiled};

use crate::field::unsigned;
use crate::piece::Piece::{Bytes, Unsigned};
use crate::piece::{Payload, append_all};
use crate::profiled::Profiled;
use readings::Reading;
use readings::range::{DATE, TIME};

#[inline(always)]
#[tactic(auto, unfolding(crate::specs::Layout::messages))]
pub fn read_system_time(payload: &[u8]) -> Profiled
    ensures { result ≡ profiled 126992 payload.now }
{
    if payload.len() < 8 {
        return Profiled::Short;
    }
    Profiled::Reading(Reading::Time {
        date: unsigned(payload, 2, 2, DATE),
        time: unsigned(payload, 4, 4, TIME),
    })
}

#[inline(always)]
#[tactic(auto, unfolding(crate::specs::Layout::messages))]
pub fn read_time_and_date(payload: &[u8]) -> Profiled
    ensures { result ≡ profiled 129033 payload.now }
{
    if payload.len() < 6 {
        return Profiled::Short;
    }
    Profiled::Reading(Reading::Time {
        date: unsigned(payload, 0, 2, DATE),
        time: unsigned(payload, 2, 4, TIME),
    })
}

/// The payload of a date and a time of day, as the system time.
pub fn write_system_time(date: Option<i64>, time: Option<i64>, out: &mut Payload)
    requires { out.old.items ≡ [] }
    ensures { out.new.items ≡ payload_of (Time date time) }
{
    append_all(
        &[Bytes(&[0xFF, 0xFF]), Unsigned(2, date), Unsigned(4, time)],
        out,
    );
}
