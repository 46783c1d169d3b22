//! Where the ship is, and where it goes.
//!
//! PGN 129025, position, rapid update: latitude (i32 at byte 0), longitude (i32 at 4).
//!
//! PGN 129026, COG and SOG, rapid update: SID, in bits 0-1 of byte 1 the reference of the course (0
//! true, 1 magnetic north), course (u16 at 2), speed (u16 at 4).
//!
//! PGN 129029, GNSS position data: SID, date (u16 at byte 1), time (u32 at 3), latitude (i64 at 7),
//! longitude (i64 at 15), altitude (i64 at 23), the method in bits 4-7 of byte 31, integrity,
//! satellites (u8 at 33), HDOP (i16 at 34), PDOP, geoidal separation (i32 at 38), reference stations.
//!
//! PGN 129283, cross track error: SID, mode and termination, distance (i32 at byte 2).

ghost use Rattle.std.specs.Prelude.{◌≡◌, []};
ghost use Rattle.readings.specs.Numbers.{bits_of};
ghost use Rattle.pgn_profile.specs.Part.{known};
ghost use Rattle.readings.specs.declared.reading.Reading.TheVariants.{CourseSpeed, CrossTrack, Position};
ghost use Rattle.readings.specs.declared.rows.Row.TheVariants as rows;
ghost use Rattle.readings.specs.Rows.{IsValid, row_of};
ghost use Rattle.pgn_profile.specs.Profiled.{payload_of, profiled};

use crate::field::{signed, unsigned};
use crate::piece::Piece::{Byte, Bytes, Signed, Unsigned};
use crate::piece::{Payload, append_all};
use crate::profiled::Profiled;
use readings::range::{
    ALTITUDE, ANGLE, CROSS_TRACK, DATE, FIX_LATITUDE, FIX_LONGITUDE, HDOP, LATITUDE, LONGITUDE,
    SATELLITES, SEPARATION, SPEED, TIME,
};
use readings::{Reading, bits};

#[inline(always)]
#[tactic(auto, unfolding(crate::specs::Layout::messages))]
pub fn read_position(payload: &[u8]) -> Profiled
    ensures { result ≡ profiled 129025 payload.now }
{
    if payload.len() < 8 {
        return Profiled::Short;
    }
    Profiled::Reading(Reading::Position {
        latitude: signed(payload, 0, 4, LATITUDE),
        longitude: signed(payload, 4, 4, LONGITUDE),
    })
}

#[inline(always)]
#[tactic(auto, unfolding(crate::specs::Layout::messages))]
pub fn read_course(payload: &[u8]) -> Profiled
    ensures { result ≡ profiled 129026 payload.now }
{
    if payload.len() < 6 {
        return Profiled::Short;
    }
    let course = unsigned(payload, 2, 2, ANGLE);
    let speed = unsigned(payload, 4, 2, SPEED);
    match bits(payload[1], 0, 2) {
        0 => Profiled::Reading(Reading::CourseSpeed {
            magnetic: false,
            course,
            speed,
        }),
        1 => Profiled::Reading(Reading::CourseSpeed {
            magnetic: true,
            course,
            speed,
        }),
        _ => Profiled::Outside,
    }
}

/// The method of a fix; what isn't known counts as no fix.
fn method(byte: u8) -> u8
    ensures { result ≡ known 8 (bits_of byte 4 4) }
{
    match bits(byte, 4, 4) {
        method @ 0..=8 => method,
        _ => 0,
    }
}

#[inline(always)]
#[tactic(auto, unfolding(crate::specs::Layout::messages))]
pub fn read_fix(payload: &[u8]) -> Profiled
    ensures { result ≡ profiled 129029 payload.now }
{
    if payload.len() < 32 {
        return Profiled::Short;
    }
    Profiled::Reading(Reading::Gnss {
        date: unsigned(payload, 1, 2, DATE),
        time: unsigned(payload, 3, 4, TIME),
        latitude: signed(payload, 7, 8, FIX_LATITUDE),
        longitude: signed(payload, 15, 8, FIX_LONGITUDE),
        altitude: signed(payload, 23, 8, ALTITUDE),
        method: method(payload[31]),
        satellites: unsigned(payload, 33, 1, SATELLITES),
        hdop: signed(payload, 34, 2, HDOP),
        separation: signed(payload, 38, 4, SEPARATION),
    })
}

#[inline(always)]
#[tactic(auto, unfolding(crate::specs::Layout::messages))]
pub fn read_cross_track(payload: &[u8]) -> Profiled
    ensures { result ≡ profiled 129283 payload.now }
{
    if payload.len() < 6 {
        return Profiled::Short;
    }
    Profiled::Reading(Reading::CrossTrack {
        distance: signed(payload, 2, 4, CROSS_TRACK),
    })
}

/// The payload of a position.
pub fn write_position(latitude: Option<i64>, longitude: Option<i64>, out: &mut Payload)
    requires { out.old.items ≡ [] }
    ensures { out.new.items ≡ payload_of (Position latitude longitude) }
{
    append_all(&[Signed(4, latitude), Signed(4, longitude)], out);
}

/// The payload of course and speed over ground.
pub fn write_course(magnetic: bool, course: Option<i64>, speed: Option<i64>, out: &mut Payload)
    requires { out.old.items ≡ [] }
    ensures { out.new.items ≡ payload_of (CourseSpeed magnetic course speed) }
{
    append_all(
        &[
            Byte(0xFF),
            Byte(if magnetic { 0xFD } else { 0xFC }),
            Unsigned(2, course),
            Unsigned(2, speed),
            Bytes(&[0xFF, 0xFF]),
        ],
        out,
    );
}

/// The payload of a satellite fix: of GPS, with its integrity unchecked, and without reference stations.
pub fn write_fix(fix: &Reading, out: &mut Payload)
    requires empty { out.old.items ≡ [] }
    requires row { row_of fix.now ≡ rows.Gnss }
    requires valid { IsValid fix.now }
    ensures { out.new.items ≡ payload_of fix.now }
{
    let Reading::Gnss {
        date,
        time,
        latitude,
        longitude,
        altitude,
        method,
        satellites,
        hdop,
        separation,
    } = *fix
    else {
        unreachable!();
    };
    append_all(
        &[
            Byte(0xFF),
            Unsigned(2, date),
            Unsigned(4, time),
            Signed(8, latitude),
            Signed(8, longitude),
            Signed(8, altitude),
            Byte(method << 4),
            Byte(0xFC),
            Unsigned(1, satellites),
            Signed(2, hdop),
            Bytes(&[0xFF, 0x7F]),
            Signed(4, separation),
            Byte(0),
        ],
        out,
    );
}

/// The payload of a distance from the track.
pub fn write_cross_track(distance: Option<i64>, out: &mut Payload)
    requires { out.old.items ≡ [] }
    ensures { out.new.items ≡ payload_of (CrossTrack distance) }
{
    append_all(
        &[
            Bytes(&[0xFF, 0x30]),
            Signed(4, distance),
            Bytes(&[0xFF, 0xFF]),
        ],
        out,
    );
}
