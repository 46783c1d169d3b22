ghost use Rattle.std.specs.Prelude.{◌≡◌, IsTrue};
ghost use Rattle.pgn_profile.specs.Part.{times};
ghost use Rattle.quantities.specs.Part.{IsWord, is_readable, is_selectable, selects, value_in};

use pgn_profile::{signed, unsigned};
use readings::{Range, bits};
use sentence_text::byte_at;

/// Which payloads of a parameter group are of an entry.
#[derive(Clone, Copy)]
pub(crate) enum Selector {
    /// Each of them.
    Always,
    /// Those in which so many bits of a byte, from the lowest of them on, have a value.
    Bits {
        place: usize,
        low: u8,
        count: u8,
        value: u8,
    },
}

impl Selector {
    /// Whether the payload is of the entry.
    pub(crate) fn selects(&self, payload: &[u8]) -> bool
        requires { IsTrue (is_selectable self.now) }
        ensures { result ≡ selects self.now payload.now }
    {
        match *self {
            Selector::Always => true,
            Selector::Bits {
                place,
                low,
                count,
                value,
            } => bits(byte_at(payload, place), low, count) == value,
        }
    }
}

/// Where a value stands in a payload, in so many bytes with the lowest first, and its range there.
#[derive(Clone, Copy)]
pub(crate) enum Part {
    /// The payload doesn't have the value.
    Absent,
    Unsigned {
        place: usize,
        width: usize,
        range: Range,
    },
    /// An unsigned number from zero to a highest one, kept times a factor.
    Multiple {
        place: usize,
        width: usize,
        high: u32,
        factor: u16,
    },
    /// A number as two's complement.
    Signed {
        place: usize,
        width: usize,
        range: Range,
    },
}

/// The value times the factor.
fn times(value: Option<i64>, factor: u16) -> Option<i64>
    requires { IsWord value }
    ensures { result ≡ times factor value }
{
    Some(value? * i64::from(factor))
}

impl Part {
    /// The value in the payload, where it is available.
    pub(crate) fn value(&self, payload: &[u8]) -> Option<i64>
        requires { IsTrue (is_readable self.now) }
        ensures { result ≡ value_in self.now payload.now }
    {
        match *self {
            Part::Absent => None,
            Part::Unsigned {
                place,
                width,
                range,
            } => unsigned(payload, place, width, range),
            Part::Multiple {
                place,
                width,
                high,
                factor,
            } => {
                let range = Range {
                    low: 0,
                    high: i64::from(high),
                };
                times(unsigned(payload, place, width, range), factor)
            }
            Part::Signed {
                place,
                width,
                range,
            } => signed(payload, place, width, range),
        }
    }
}
