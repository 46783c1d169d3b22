//! The units in which the quantities are said.

use readings::range::GREATEST_U16;
use sentence_fields::written_unit::WrittenUnit;

/// A unit by its fraction, its decimals, the largest value of either sign and the most digits.
macro_rules! unit {
    ($num:literal / $den:literal, $places:literal, $largest:expr, $digits:literal) => {
        WrittenUnit {
            num: $num,
            den: $den,
            places: $places,
            largest: $largest,
            digits: $digits,
        }
    };
}

/// Speeds to either side, from 0.001 m/s.
pub const COMPONENT_KNOTS: WrittenUnit = unit!(90 / 463, 2, 32_764, 4);

/// The air's pressure, from 0.1 Pa.
pub const AIR_BARS: WrittenUnit = unit!(1 / 100, 4, 2_000_000, 5);

/// The oil's pressure, from 100 Pa.
pub const OIL_BARS: WrittenUnit = unit!(1 / 10, 2, GREATEST_U16 as u64, 4);

/// Humidity and levels, from 0.004 %.
pub const PERCENT: WrittenUnit = unit!(1 / 25, 1, 25_000, 4);

/// Degrees Celsius, from thousandths of a degree.
pub const CELSIUS: WrittenUnit = unit!(1 / 100, 1, 16_504_062, 6);

/// Revolutions a minute, from 0.25.
pub const REVOLUTIONS: WrittenUnit = unit!(5 / 2, 1, GREATEST_U16 as u64, 6);

/// From 0.01 V.
pub const VOLTS: WrittenUnit = unit!(1 / 1, 2, 32_764, 5);

/// From 0.1 A.
pub const AMPERES: WrittenUnit = unit!(1 / 1, 1, 32_764, 5);
