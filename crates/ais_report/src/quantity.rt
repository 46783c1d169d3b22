//! The quantities of a payload in the units of a report: each raw value times one fraction.
ghost use Rattle.std.specs.Prelude.{◌≡◌, pos};
ghost use Rattle.readings.specs.Ranges.{Admits, Holds, angle, speed, latitude, longitude};
ghost use Rattle.ais_report.specs.Converted as spec;

use readings::range::{LATITUDE, LONGITUDE};
use readings::{Range, read_signed, read_unsigned};
use unit_fraction::{Fraction, scale};

/// From 0.01 m/s to 0.1 knot.
const TENTHS_OF_KNOT: Fraction = Fraction { num: 90, den: 463 };

/// From 1e-7 degree to 1e-4 minute.
const MINUTES: Fraction = Fraction { num: 3, den: 50 };

/// From 1e-4 radian to 0.1 degree; pi is 3.141592653589793.
const TENTHS_OF_DEGREE: Fraction = Fraction {
    num: 180_000_000_000_000,
    den: 3_141_592_653_589_793,
};

/// From 1e-4 radian to degrees.
const DEGREES: Fraction = Fraction {
    num: 18_000_000_000_000,
    den: 3_141_592_653_589_793,
};

/// The greatest speed that is told: 102.2 knots and more.
const MOST_SPEED: u128 = 1022;

/// The value where it is in the range.
fn held(range: Range, value: Option<i64>) -> Option<i64>
    ensures value { result ≡ spec.held range value }
    ensures within { Admits range result }
{
    match value {
        Some(value) if range.holds(value) => Some(value),
        _ => None,
    }
}

/// The unsigned number of two bytes at a place, where it is in the range.
pub(crate) fn unsigned_held(range: Range, payload: &[u8], place: usize) -> Option<i64>
    ensures value { result ≡ spec.unsigned_held range payload.now place }
    ensures within { Admits range result }
{
    match read_unsigned(payload, place, 2) {
        Some(value) => held(range, i64::try_from(value).ok()),
        None => None,
    }
}

/// The signed number of four bytes at a place, where it is in the range.
fn signed_held(range: Range, payload: &[u8], place: usize) -> Option<i64>
    ensures value { result ≡ spec.signed_held range payload.now place }
    ensures within { Admits range result }
{
    held(range, read_signed(payload, place, 4))
}

/// Speed over ground in 0.1 knot.
pub(crate) fn sog_of(value: Option<i64>) -> u16
    ensures value { result ≡ spec.sog_of value }
{
    match value {
        Some(value) => scale(TENTHS_OF_KNOT, value).unsigned_abs().min(MOST_SPEED) as u16,
        None => 1023,
    }
}

/// Course over ground in 0.1 degree, all round being zero.
pub(crate) fn cog_of(value: Option<i64>) -> u16
    ensures value { result ≡ spec.cog_of value }
{
    match value {
        Some(value) => (scale(TENTHS_OF_DEGREE, value).unsigned_abs() % 3600) as u16,
        None => 3600,
    }
}

/// True heading in degrees, all round being zero.
pub(crate) fn heading_of(value: Option<i64>) -> u16
    ensures value { result ≡ spec.heading_of value }
{
    match value {
        Some(value) => (scale(DEGREES, value).unsigned_abs() % 360) as u16,
        None => 511,
    }
}

/// Longitude in 1e-4 minute.
pub(crate) fn longitude_in(payload: &[u8]) -> i32
    ensures value { result ≡ spec.position_of (pos 108600000) (spec.signed_held longitude payload.now 5) }
{
    match signed_held(LONGITUDE, payload, 5) {
        Some(value) => minutes(value),
        None => 108_600_000,
    }
}

/// Latitude in 1e-4 minute.
pub(crate) fn latitude_in(payload: &[u8]) -> i32
    ensures value { result ≡ spec.position_of (pos 54600000) (spec.signed_held latitude payload.now 9) }
{
    match signed_held(LATITUDE, payload, 9) {
        Some(value) => minutes(value),
        None => 54_600_000,
    }
}

/// Minutes of a position with a count of 1e-7 degree.
#[tactic(auto, using(crate::proofs::MinuteLemmas::minutes_within, crate::proofs::MinuteLemmas::value_within))]
fn minutes(value: i64) -> i32
    requires { Holds longitude value }
    ensures value { result ≡ spec.times value 3 50 }
{
    scale(MINUTES, value) as i32
}
