//! The value of a number field in a payload.
//!
//! The three largest values of a field's width say that there is none. Each range of the profile ends
//! below them, so the range alone tells whether a value is available.

ghost use Rattle.std.specs.Prelude.{◌≡◌, ◌≤◌, ◌≤ℤ◌, ◌-ℤ◌, pos};
ghost use Rattle.pgn_profile.specs.Part.{largest_signed, largest_unsigned, signed_value, unsigned_value};

use readings::{Range, read_signed, read_unsigned};

/// The unsigned value of `width` bytes at byte `at`, where it is available.
#[inline]
pub fn unsigned(payload: &[u8], at: usize, width: usize, range: Range) -> Option<i64>
    requires narrowest { 1 ≤ width }
    requires widest { width ≤ 8 }
    requires below_largest { range.high ≤ℤ (largest_unsigned width -ℤ pos 3) }

    ensures { result ≡ unsigned_value at width range payload.now }
{
    match i64::try_from(read_unsigned(payload, at, width)?) {
        Ok(value) if range.holds(value) => Some(value),
        _ => None,
    }
}

/// The signed value of `width` bytes at byte `at`, where it is available.
#[inline]
pub fn signed(payload: &[u8], at: usize, width: usize, range: Range) -> Option<i64>
    requires narrowest { 1 ≤ width }
    requires widest { width ≤ 8 }
    requires below_largest { range.high ≤ℤ (largest_signed width -ℤ pos 3) }

    ensures { result ≡ signed_value at width range payload.now }
{
    let value = read_signed(payload, at, width)?;
    if range.holds(value) {
        Some(value)
    } else {
        None
    }
}
