//! A payload of PGN 129038 as a report.
ghost use Rattle.std.specs.Prelude.{◌≡◌, ◌≤◌, IfOk, false, length};
ghost use Rattle.ais_report.specs.Converted.{converted, is_outside, least_bytes, report_in, radio_word, transceiver_in, user_id};
ghost use Rattle.ais_report.specs.Fields.{IsReport};

use crate::field::MOST_MMSI;
use crate::quantity::{cog_of, heading_of, latitude_in, longitude_in, sog_of, unsigned_held};
use crate::report::{AisFault, AisReport};
use readings::range::{ANGLE, SPEED};
use readings::{bits, read_unsigned};

/// How many bytes the payload has at least.
const LEAST_BYTES: usize = 26;

/// Reads a payload of PGN 129038 (AIS class A position report; canboat): the report, with the letter of the channel on which it was heard.
/// Values out of their range count as not available.
pub fn convert(payload: &[u8]) -> Result<(AisReport, u8), AisFault>
    ensures exact { result ≡ converted payload.now }
    ensures valid { IfOk result (λ x. IsReport x.0) }
{
    if payload.len() < LEAST_BYTES {
        return Err(AisFault::Short);
    }
    let user = user_id(payload);
    let word = radio_word(payload);
    if is_outside(payload, user, word) {
        return Err(AisFault::Outside);
    }
    let channel = if transceiver(word) == 0 { b'A' } else { b'B' };
    Ok((report_in(payload, user as u32, word), channel))
}

/// The number of the ship, as it comes.
fn user_id(payload: &[u8]) -> u64
    ensures { result ≡ user_id payload.now }
{
    read_unsigned(payload, 1, 4).unwrap_or(0)
}

/// The state of the radio and the transceiver behind it, 24 bits in all.
fn radio_word(payload: &[u8]) -> u64
    ensures { result ≡ radio_word payload.now }
{
    read_unsigned(payload, 18, 3).unwrap_or(0)
}

fn transceiver(word: u64) -> u64
    ensures { result ≡ transceiver_in word }
{
    (word >> 19) % 32
}

/// Whether it is another kind of message, no number of a ship, or a transceiver that isn't known.
fn is_outside(payload: &[u8], user: u64, word: u64) -> bool
    requires length { least_bytes ≤ length payload.now }
    requires user { user ≡ user_id payload.now }
    requires word { word ≡ radio_word payload.now }
    ensures { result ≡ is_outside payload.now }
{
    let kind = bits(payload[0], 0, 6);
    kind < 1 || kind > 3 || user > u64::from(MOST_MMSI) || transceiver(word) > 1
}

/// The report in a payload that is long enough.
fn report_in(payload: &[u8], mmsi: u32, word: u64) -> AisReport
    requires length { least_bytes ≤ length payload.now }
    requires mmsi { mmsi ≡ user_id payload.now }
    requires word { word ≡ radio_word payload.now }
    requires inside { is_outside payload.now ≡ false }
    ensures { result ≡ report_in payload.now }
{
    AisReport {
        kind: bits(payload[0], 0, 6),
        repeat: bits(payload[0], 6, 2),
        mmsi,
        status: bits(payload[25], 0, 4),
        sog: sog_of(unsigned_held(SPEED, payload, 16)),
        accuracy: bits(payload[13], 0, 1) == 1,
        longitude: longitude_in(payload),
        latitude: latitude_in(payload),
        cog: cog_of(unsigned_held(ANGLE, payload, 14)),
        heading: heading_of(unsigned_held(ANGLE, payload, 21)),
        second: bits(payload[13], 2, 6),
        manoeuvre: bits(payload[25], 4, 2),
        raim: bits(payload[13], 1, 1) == 1,
        radio: (word % (1 << 19)) as u32,
    }
}
