//! The water: speed through it, its depth, the distance sailed through it, and its temperature.
//!
//! PGN 128259, speed: SID, speed through the water (u16 at byte 1).
//!
//! PGN 128267, water depth: SID, depth (u32 at byte 1), offset (i16 at 5), range (u8 at 7).
//!
//! PGN 128275, distance log: date, time, log (u32 at byte 6), trip log (u32 at 10).
//!
//! PGN 130312, temperature: SID, instance, source (byte 2, 0 for the sea), temperature (u16 at byte 3,
//! in 0.01 K). It is read and never written.
//!
//! PGN 130316, temperature, extended range: the same with a temperature of three bytes in 0.001 K.

ghost use Rattle.std.specs.Prelude.{◌≡◌, []};
ghost use Rattle.readings.specs.declared.reading.Reading.TheVariants.{Depth, DistanceLog, WaterSpeed, WaterTemperature};
ghost use Rattle.pgn_profile.specs.Profiled.{payload_of, profiled};

use crate::field::{signed, unsigned};
use crate::piece::Piece::{Byte, Bytes, Signed, Unsigned};
use crate::piece::{Payload, append_all};
use crate::profiled::Profiled;
use readings::range::{DEPTH, DEPTH_SCALE, OFFSET, SPEED, WATER_DISTANCE, WATER_TEMPERATURE};
use readings::{Range, Reading};

/// The temperatures of PGN 130312, in hundredths of a kelvin.
const WATER_TEMPERATURE_HUNDREDTHS: Range = Range {
    low: 17_315,
    high: 37_315,
};

#[inline(always)]
#[tactic(auto, unfolding(crate::specs::Layout::messages))]
pub fn read_water_speed(payload: &[u8]) -> Profiled
    ensures { result ≡ profiled 128259 payload.now }
{
    if payload.len() < 3 {
        return Profiled::Short;
    }
    Profiled::Reading(Reading::WaterSpeed {
        speed: unsigned(payload, 1, 2, SPEED),
    })
}

#[inline(always)]
#[tactic(auto, unfolding(crate::specs::Layout::messages))]
pub fn read_depth(payload: &[u8]) -> Profiled
    ensures { result ≡ profiled 128267 payload.now }
{
    if payload.len() < 5 {
        return Profiled::Short;
    }
    Profiled::Reading(Reading::Depth {
        depth: unsigned(payload, 1, 4, DEPTH),
        offset: signed(payload, 5, 2, OFFSET),
        range: unsigned(payload, 7, 1, DEPTH_SCALE),
    })
}

#[inline(always)]
#[tactic(auto, unfolding(crate::specs::Layout::messages))]
pub fn read_distance_log(payload: &[u8]) -> Profiled
    ensures { result ≡ profiled 128275 payload.now }
{
    if payload.len() < 10 {
        return Profiled::Short;
    }
    Profiled::Reading(Reading::DistanceLog {
        log: unsigned(payload, 6, 4, WATER_DISTANCE),
        trip: unsigned(payload, 10, 4, WATER_DISTANCE),
    })
}

#[inline(always)]
#[tactic(auto, unfolding(crate::specs::Layout::messages))]
pub fn read_temperature(payload: &[u8]) -> Profiled
    ensures { result ≡ profiled 130312 payload.now }
{
    if payload.len() < 5 {
        return Profiled::Short;
    }
    if payload[2] != 0 {
        return Profiled::Outside;
    }
    let kelvin = match unsigned(payload, 3, 2, WATER_TEMPERATURE_HUNDREDTHS) {
        Some(hundredths) => Some(hundredths * 10),
        None => None,
    };
    Profiled::Reading(Reading::WaterTemperature { kelvin })
}

#[inline(always)]
#[tactic(auto, unfolding(crate::specs::Layout::messages))]
pub fn read_extended_temperature(payload: &[u8]) -> Profiled
    ensures { result ≡ profiled 130316 payload.now }
{
    if payload.len() < 6 {
        return Profiled::Short;
    }
    if payload[2] != 0 {
        return Profiled::Outside;
    }
    Profiled::Reading(Reading::WaterTemperature {
        kelvin: unsigned(payload, 3, 3, WATER_TEMPERATURE),
    })
}

/// The payload of a speed through the water.
pub fn write_water_speed(speed: Option<i64>, out: &mut Payload)
    requires { out.old.items ≡ [] }
    ensures { out.new.items ≡ payload_of (WaterSpeed speed) }
{
    append_all(
        &[
            Byte(0xFF),
            Unsigned(2, speed),
            Bytes(&[0xFF, 0xFF, 0xFF, 0xFF, 0xFF]),
        ],
        out,
    );
}

/// The payload of a depth.
pub fn write_depth(depth: Option<i64>, offset: Option<i64>, range: Option<i64>, out: &mut Payload)
    requires { out.old.items ≡ [] }
    ensures { out.new.items ≡ payload_of (Depth depth offset range) }
{
    append_all(
        &[
            Byte(0xFF),
            Unsigned(4, depth),
            Signed(2, offset),
            Unsigned(1, range),
        ],
        out,
    );
}

/// The payload of the distances through the water.
pub fn write_distance_log(log: Option<i64>, trip: Option<i64>, out: &mut Payload)
    requires { out.old.items ≡ [] }
    ensures { out.new.items ≡ payload_of (DistanceLog log trip) }
{
    append_all(
        &[
            Bytes(&[0xFF, 0xFF, 0xFF, 0xFF, 0xFF, 0xFF]),
            Unsigned(4, log),
            Unsigned(4, trip),
        ],
        out,
    );
}

/// The payload of a temperature of the sea, of the extended range.
pub fn write_extended_temperature(kelvin: Option<i64>, out: &mut Payload)
    requires { out.old.items ≡ [] }
    ensures { out.new.items ≡ payload_of (WaterTemperature kelvin) }
{
    append_all(
        &[
            Bytes(&[0xFF, 0, 0]),
            Unsigned(3, kelvin),
            Bytes(&[0xFF, 0xFF]),
        ],
        out,
    );
}
