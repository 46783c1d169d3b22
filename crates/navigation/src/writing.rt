//! The datagram of a leg: `$GPRMB,A,0.100,L,3,4,5738.7645,N,01424.6911,E,12.3,92.0,9.99,V,A*5A`,
//! `$GPAPB,A,A,0.100,L,N,V,V,90.0,T,4,92.0,T,92.0,T,A*73` and `$GPXTE,A,A,0.100,L,N,A*32`.
//!
//! RMB: 1 status, 2 and 3 the error in nautical miles and the side to which to steer, 4 and 5 the numbers of the origin and the destination, 6 to 9 the position
//! of the destination, 10 its distance in nautical miles, 11 its true bearing, 12 the closing speed in knots, 13 `A` on arrival, 14 mode.
//!
//! APB: 1 and 2 status, 3 to 5 the error, the side to which to steer and `N`, 6 `A` in the arrival circle, 7 `A` once the perpendicular is passed, 8 and 9 the
//! bearing of the leg, 10 the number of the destination, 11 and 12 its bearing, 13 and 14 the heading to steer, 15 mode.
ghost use Rattle.std.specs.Prelude.{◌≡◌, ◌<◌, ◌≤◌, [], IsTrue, length, nat_lt};
ghost use Rattle.std.specs.List.{AllByRecursion, list_all};
ghost use Rattle.readings.specs.Ranges.{Admits, cross_track};
ghost use Rattle.sentence_text.specs.Byte.{is_capital};
ghost use Rattle.sentence_fields.specs.Field.{IsPrintable, body_width, width_of};
ghost use Rattle.sentence_profile.specs.Writing.{beside, xte};
ghost use Rattle.counted_lines.specs.CountedLines.{lines_datagram};
ghost use Rattle.navigation.specs.Legs.{IsLeg, distance, waypoint};
ghost use Rattle.navigation.specs.Sentences.{apb, at_most, closing_knots, digits_in, distance_field, error_field, is_steered, is_whole, leg_texts, north_letter, rmb, side_field, tenth_miles, waypoint_field};

use crate::leg::Leg;
use counted_lines::{append_line, append_where};
use datagram450::begin;
use sentence_fields::Field::{Angle, Decimal, Degrees, Digits, Letter, Magnitude, Side};
use sentence_fields::written_unit::{MINUTES, TRACK_MILES, WrittenUnit};
use sentence_fields::{Field, letter_where};
use sentence_text::Sfi;
use tag_block::Packet;
use unit_fraction::{Fraction, scale};

/// Tenths of a nautical mile, from 0.01 m.
const TENTH_MILES: WrittenUnit = WrittenUnit {
    num: 1,
    den: 18_520,
    places: 1,
    largest: 4_294_967_292,
    digits: 6,
};

/// The closing speed, from 0.01 m/s.
const CLOSING_KNOTS: WrittenUnit = WrittenUnit {
    num: 900,
    den: 463,
    places: 2,
    largest: 32_764,
    digits: 5,
};

/// Thousandths of a nautical mile, at most 9.990 miles.
const ERROR_MILES: WrittenUnit = WrittenUnit {
    num: 1,
    den: 1,
    places: 3,
    largest: 9_990,
    digits: 4,
};

/// Tenths of a nautical mile, at most 999.9 miles.
const DISTANCE_MILES: WrittenUnit = WrittenUnit {
    num: 1,
    den: 1,
    places: 1,
    largest: 9_999,
    digits: 4,
};

/// Writes the datagram of a leg, before which so many lines were said, and answers how many it has.
pub(crate) fn write_leg(
    source: Sfi,
    before: u16,
    talker: [u8; 2],
    leg: &Leg,
    error: Option<i64>,
    packet: &mut Packet,
) -> u16
    requires empty { packet.old.items ≡ [] }
    requires talker { IsTrue (list_all is_capital talker) }
    requires count { before < 1000 }
    requires leg { IsLeg leg.now }
    requires error { Admits cross_track error }
    ensures written { packet.new.items ≡ lines_datagram source before (leg_texts talker leg.now error) }
    ensures count { result ≡ length (leg_texts talker leg.now error) }
{
    begin(packet);
    let rmb = rmb(leg, error);
    let first = append_where(!leg.magnetic, source, before, talker, *b"RMB", &rmb, packet);
    let apb = apb(leg, error);
    append_line(source, before + first, talker, *b"APB", &apb, packet);
    let xte = xte(error);
    append_line(source, before + first + 1, talker, *b"XTE", &xte, packet);
    first + 2
}

fn rmb(leg: &Leg, error: Option<i64>) -> [Field; 14]
    requires { IsLeg leg.now }
    ensures fields { result ≡ rmb leg.now error }
    ensures printable { AllByRecursion IsPrintable result }
    ensures short { body_width result ≤ 71 }
{
    let is_whole = is_whole(leg, error);
    let latitude = beside(leg.latitude, leg.longitude);
    let longitude = beside(leg.longitude, leg.latitude);
    [
        Letter(letter_where(is_whole, b'A', b'V')),
        error_field(error),
        side_field(error),
        waypoint_field(leg.origin),
        waypoint_field(leg.destination),
        Degrees(latitude, MINUTES, 2),
        Side(latitude, MINUTES, b'N', b'S'),
        Degrees(longitude, MINUTES, 3),
        Side(longitude, MINUTES, b'E', b'W'),
        distance_field(leg.distance),
        Angle(leg.bearing),
        Decimal(leg.closing, CLOSING_KNOTS),
        Letter(letter_where(leg.entered || leg.passed, b'A', b'V')),
        Letter(letter_where(is_whole, b'A', b'N')),
    ]
}

fn apb(leg: &Leg, error: Option<i64>) -> [Field; 15]
    requires { IsLeg leg.now }
    ensures fields { result ≡ apb leg.now error }
    ensures printable { AllByRecursion IsPrintable result }
    ensures short { body_width result ≤ 71 }
{
    let is_steered = error.is_some() && leg.track.is_some() && leg.bearing.is_some();
    let north = Letter(letter_where(leg.magnetic, b'M', b'T'));
    [
        Letter(letter_where(is_steered, b'A', b'V')),
        Letter(letter_where(is_steered, b'A', b'V')),
        error_field(error),
        side_field(error),
        Letter(b'N'),
        Letter(letter_where(leg.entered, b'A', b'V')),
        Letter(letter_where(leg.passed, b'A', b'V')),
        Angle(leg.track),
        north,
        waypoint_field(leg.destination),
        Angle(leg.bearing),
        north,
        Angle(leg.bearing),
        north,
        Letter(letter_where(is_steered, b'A', b'N')),
    ]
}

fn xte(error: Option<i64>) -> [Field; 6]
    requires { Admits cross_track error }
    ensures fields { result ≡ xte error }
    ensures printable { AllByRecursion IsPrintable result }
    ensures short { body_width result ≤ 71 }
{
    let status = Letter(letter_where(error.is_some(), b'A', b'V'));
    [
        status,
        status,
        Magnitude(error, TRACK_MILES),
        side_field(error),
        Letter(b'N'),
        Letter(letter_where(error.is_some(), b'A', b'N')),
    ]
}

/// Whether all is there that makes RMB valid.
fn is_whole(leg: &Leg, error: Option<i64>) -> bool
    ensures { result ≡ is_whole leg.now error }
{
    error.is_some()
        && leg.distance.is_some()
        && leg.bearing.is_some()
        && leg.latitude.is_some()
        && leg.longitude.is_some()
}

/// Latitude and longitude are said together or not at all.
fn beside(value: Option<i64>, other: Option<i64>) -> Option<i64>
    ensures { result ≡ beside value other }
{
    match other {
        None => None,
        Some(_) => value,
    }
}

/// The error without its sign, at most 9.990 miles.
fn error_field(error: Option<i64>) -> Field
    ensures field { result ≡ error_field error }
    ensures printable { IsPrintable result }
{
    Magnitude(at_most(9_990, TRACK_MILES, error), ERROR_MILES)
}

/// The side to which to steer: `L` from zero on.
fn side_field(error: Option<i64>) -> Field
    ensures field { result ≡ side_field error }
    ensures printable { IsPrintable result }
{
    Side(error, TRACK_MILES, b'L', b'R')
}

/// The distance, at most 999.9 miles.
fn distance_field(distance: Option<i64>) -> Field
    ensures field { result ≡ distance_field distance }
    ensures printable { IsPrintable result }
{
    Magnitude(at_most(9_999, TENTH_MILES, distance), DISTANCE_MILES)
}

/// The last decimals of a unit, no more than so many of them.
fn at_most(most: u32, unit: WrittenUnit, raw: Option<i64>) -> Option<i64>
    requires { IsTrue (nat_lt 0 unit.den) }
    ensures value { result ≡ at_most most unit raw }
{
    match raw {
        None => None,
        Some(raw) => {
            let fraction = Fraction {
                num: unit.num,
                den: unit.den,
            };
            Some(scale(fraction, raw).unsigned_abs().min(u128::from(most)) as i64)
        }
    }
}

/// The number of a waypoint, without zeros in front.
fn waypoint_field(number: Option<i64>) -> Field
    requires { Admits waypoint number }
    ensures field { result ≡ waypoint_field number }
    ensures printable { IsPrintable result }
    ensures short { width_of result ≤ 5 }
{
    match number {
        None => Digits(None, 0),
        Some(number) => Digits(
            Some(number.unsigned_abs()),
            digits_in(number.unsigned_abs()),
        ),
    }
}

/// How many digits a number of at most five has.
fn digits_in(number: u64) -> u8
    ensures { result ≡ digits_in number }
{
    match number {
        0..=9 => 1,
        10..=99 => 2,
        100..=999 => 3,
        1_000..=9_999 => 4,
        _ => 5,
    }
}
