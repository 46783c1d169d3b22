//! Each payload was worked out by hand from the layouts of the messages. What stands here is tried to the unit of a reading; the program shows the
//! sentences alone, which are rounded.

mod absent;
mod carried;

use absent::{
    NO_APPARENT_WIND, NO_COURSE, NO_CROSS_TRACK, NO_DEPTH, NO_DISTANCE, NO_FIRST_RUDDER, NO_FIX,
    NO_MAGNETIC_HEADING, NO_POSITION, NO_RATE_OF_TURN, NO_SECOND_RUDDER, NO_TEMPERATURE, NO_TIME,
    NO_TRUE_HEADING, NO_TRUE_WIND, NO_WATER_SPEED, NO_WIND_BY_NORTH,
};
use carried::CARRIED;
use pgn_profile::{Payload, Profiled, read, write};
use readings::{Reading, valid};

/// Just beyond the ranges, and what is read there.
const BEYOND: [(u32, &[u8], Reading); 26] = [
    (
        127_250,
        &[0xFF, 0x71, 0xF5, 0xFF, 0x7F, 0xFF, 0x7F, 0xFC],
        NO_TRUE_HEADING,
    ),
    (
        127_250,
        &[0xFF, 0x71, 0xF5, 0x47, 0x85, 0x47, 0x85, 0xFD],
        NO_MAGNETIC_HEADING,
    ),
    (
        127_250,
        &[0xFF, 0x71, 0xF5, 0xB9, 0x7A, 0xB9, 0x7A, 0xFD],
        NO_MAGNETIC_HEADING,
    ),
    (
        127_251,
        &[0xFF, 0x63, 0x79, 0x84, 0xC8, 0xFF, 0xFF, 0xFF],
        NO_RATE_OF_TURN,
    ),
    (
        127_251,
        &[0xFF, 0x9D, 0x86, 0x7B, 0x37, 0xFF, 0xFF, 0xFF],
        NO_RATE_OF_TURN,
    ),
    (
        127_245,
        &[0x00, 0xFF, 0xFF, 0x7F, 0xA3, 0xC2, 0xFF, 0xFF],
        NO_FIRST_RUDDER,
    ),
    (
        127_245,
        &[0x00, 0xFF, 0xFF, 0x7F, 0x5D, 0x3D, 0xFF, 0xFF],
        NO_FIRST_RUDDER,
    ),
    (
        127_245,
        &[0x01, 0xFF, 0xFF, 0x7F, 0xA3, 0xC2, 0xFF, 0xFF],
        NO_SECOND_RUDDER,
    ),
    (
        127_245,
        &[0x01, 0xFF, 0xFF, 0x7F, 0x5D, 0x3D, 0xFF, 0xFF],
        NO_SECOND_RUDDER,
    ),
    (
        128_259,
        &[0xFF, 0xFD, 0xFF, 0xFF, 0xFF, 0xFF, 0xFF, 0xFF],
        NO_WATER_SPEED,
    ),
    (
        128_267,
        &[0xFF, 0x81, 0x4F, 0x12, 0x00, 0x03, 0x80, 0xFD],
        NO_DEPTH,
    ),
    (
        128_267,
        &[0xFF, 0x81, 0x4F, 0x12, 0x00, 0xFD, 0x7F, 0xFD],
        NO_DEPTH,
    ),
    (
        128_275,
        &[
            0xFF, 0xFF, 0xFF, 0xFF, 0xFF, 0xFF, 0x01, 0x8E, 0xC6, 0xDC, 0x01, 0x8E, 0xC6, 0xDC,
        ],
        NO_DISTANCE,
    ),
    (
        129_025,
        &[0xFF, 0x16, 0x5B, 0xCA, 0xFF, 0x2D, 0xB6, 0x94],
        NO_POSITION,
    ),
    (
        129_025,
        &[0x01, 0xE9, 0xA4, 0x35, 0x01, 0xD2, 0x49, 0x6B],
        NO_POSITION,
    ),
    (
        129_026,
        &[0xFF, 0xFC, 0x71, 0xF5, 0xFD, 0xFF, 0xFF, 0xFF],
        NO_COURSE,
    ),
    (
        129_029,
        &[
            0xFF, 0xFD, 0xFF, 0x00, 0x98, 0x7F, 0x33, 0xFF, 0xFF, 0x25, 0xB6, 0xC4, 0x8E, 0x82,
            0xF3, 0xFF, 0xFF, 0x4B, 0x6C, 0x89, 0x1D, 0x05, 0xE7, 0x9F, 0xA2, 0xF5, 0xAB, 0xFD,
            0xFF, 0xFF, 0xFF, 0xF0, 0xFC, 0xFD, 0x10, 0x27, 0xFF, 0x7F, 0x69, 0x79, 0xFE, 0xFF,
            0x00,
        ],
        NO_FIX,
    ),
    (
        129_029,
        &[
            0xFF, 0xFD, 0xFF, 0x00, 0x98, 0x7F, 0x33, 0x01, 0x00, 0xDA, 0x49, 0x3B, 0x71, 0x7D,
            0x0C, 0x01, 0x00, 0xB4, 0x93, 0x76, 0xE2, 0xFA, 0x18, 0x61, 0x5D, 0x0A, 0x54, 0x02,
            0x00, 0x00, 0x00, 0x90, 0xFC, 0xFD, 0x10, 0x27, 0xFF, 0x7F, 0x97, 0x86, 0x01, 0x00,
            0x00,
        ],
        NO_FIX,
    ),
    (
        126_992,
        &[0xFF, 0xFF, 0xFD, 0xFF, 0x00, 0x98, 0x7F, 0x33],
        NO_TIME,
    ),
    (
        130_306,
        &[0xFF, 0xFD, 0xFF, 0x71, 0xF5, 0xFA, 0xFF, 0xFF],
        NO_APPARENT_WIND,
    ),
    (
        130_306,
        &[0xFF, 0xFD, 0xFF, 0x71, 0xF5, 0xFB, 0xFF, 0xFF],
        NO_TRUE_WIND,
    ),
    (
        130_306,
        &[0xFF, 0xFD, 0xFF, 0x71, 0xF5, 0xF8, 0xFF, 0xFF],
        NO_WIND_BY_NORTH,
    ),
    (
        130_316,
        &[0xFF, 0x00, 0x00, 0x5D, 0xA4, 0x02, 0xFF, 0xFF],
        NO_TEMPERATURE,
    ),
    (
        130_316,
        &[0xFF, 0x00, 0x00, 0x9F, 0xB1, 0x05, 0xFF, 0xFF],
        NO_TEMPERATURE,
    ),
    (
        129_283,
        &[0xFF, 0x30, 0x3F, 0x68, 0xE5, 0xFE, 0xFF, 0xFF],
        NO_CROSS_TRACK,
    ),
    (
        129_283,
        &[0xFF, 0x30, 0xC1, 0x97, 0x1A, 0x01, 0xFF, 0xFF],
        NO_CROSS_TRACK,
    ),
];

/// Other payloads of the same rows, and their readings.
// The only rudder, a true wind to the water, PGN 129033, and 27315 hundredths of a kelvin.
const OTHERS: [(u32, &[u8], Reading); 6] = [
    (
        127_245,
        &[0xFF, 0xFF, 0xFF, 0x7F, 0x5C, 0x3D],
        Reading::RudderFirst {
            position: Some(15_708),
        },
    ),
    (
        130_306,
        &[0xFF, 0x02, 0x02, 0x5C, 0x3D, 0xFC],
        Reading::WindTrue {
            speed: Some(514),
            angle: Some(15_708),
        },
    ),
    (
        129_033,
        &[0xDB, 0x4C, 0x00, 0x08, 0xAF, 0x2F],
        Reading::Time {
            date: Some(19_675),
            time: Some(800_000_000),
        },
    ),
    (
        130_312,
        &[0xFF, 0x00, 0x00, 0xB3, 0x6A],
        Reading::WaterTemperature {
            kelvin: Some(273_150),
        },
    ),
    // Five bytes of depth end before the offset.
    (
        128_267,
        &[0xFF, 0xD2, 0x04, 0x00, 0x00],
        Reading::Depth {
            depth: Some(1_234),
            offset: None,
            range: None,
        },
    ),
    // A fix from a whole fast packet.
    (
        129_029,
        &[
            0x00, 0xDB, 0x4C, 0x00, 0x08, 0xAF, 0x2F, 0x00, 0x00, 0x00, 0x00, 0x00, 0x00, 0x00,
            0x08, 0x00, 0x00, 0x00, 0x00, 0x00, 0x00, 0x00, 0x02, 0xE0, 0xAE, 0xBB, 0x00, 0x00,
            0x00, 0x00, 0x00, 0x10, 0xFC, 0x09, 0x69, 0x00, 0xFF, 0x7F, 0xF4, 0x06, 0x00, 0x00,
            0x00,
        ],
        Reading::Gnss {
            date: Some(19_675),
            time: Some(800_000_000),
            latitude: Some(576_460_752_303_423_488),
            longitude: Some(144_115_188_075_855_872),
            altitude: Some(12_300_000),
            method: 1,
            satellites: Some(9),
            hdop: Some(105),
            separation: Some(1_780),
        },
    ),
];

/// Whether the readings, which are valid, are written as the same payload: each is read back, so they are one.
fn are_same(one: &Reading, other: &Reading) -> bool {
    if !valid(one) || !valid(other) {
        return false;
    }
    let mut first = Payload::new();
    let mut second = Payload::new();
    write(one, &mut first) == write(other, &mut second) && first.as_slice() == second.as_slice()
}

/// Whether the payload is read as the reading.
fn is_read(pgn: u32, payload: &[u8], reading: &Reading) -> bool {
    match read(pgn, payload) {
        Profiled::Reading(found) => are_same(&found, reading),
        _ => false,
    }
}

/// Whether the reading, which is valid, is written as the payload.
fn is_written(pgn: u32, payload: &[u8], reading: &Reading) -> bool {
    if !valid(reading) {
        return false;
    }
    let mut out = Payload::new();
    write(reading, &mut out) == pgn && out.as_slice() == payload
}

#[test]
fn each_payload_is_read(rt: HostRuntime) {
    for (pgn, payload, reading) in &CARRIED {
        assert!(rt; is_read(*pgn, payload, reading));
    }
}

#[test]
fn each_payload_is_written(rt: HostRuntime) {
    for (pgn, payload, reading) in &CARRIED {
        assert!(rt; is_written(*pgn, payload, reading));
    }
}

#[test]
fn beyond_its_range_a_value_is_not_available(rt: HostRuntime) {
    for (pgn, payload, reading) in &BEYOND {
        assert!(rt; is_read(*pgn, payload, reading));
    }
}

#[test]
fn other_payloads_of_the_same_rows_are_read(rt: HostRuntime) {
    for (pgn, payload, reading) in &OTHERS {
        assert!(rt; is_read(*pgn, payload, reading));
    }
}
