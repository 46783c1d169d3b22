//! The units in which sentences say raw values. A raw value times the fraction, rounded to the nearest
//! whole number, counts the last decimals that are printed.

use readings::range;

/// A unit of a sentence: the fraction from raw values, the decimals, the largest raw value of either
/// sign, and the most digits that its count has.
#[derive(Clone, Copy)]
pub struct WrittenUnit {
    pub num: u64,
    pub den: u64,
    pub places: u8,
    pub largest: u64,
    pub digits: u8,
}

/// A unit by its fraction, its decimals, the largest raw value and the most digits.
macro_rules! unit {
    ($num:literal / $den:literal, $places:literal, $largest:expr, $digits:literal) => {
        WrittenUnit {
            num: $num,
            den: $den,
            places: $places,
            largest: $largest,
            digits: $digits,
        }
    };
}

/// Deviation, variation and rudder, from 1e-4 radian; pi is 3.141592653589793.
pub const DEGREES: WrittenUnit = unit!(180_000_000_000_000 / 3_141_592_653_589_793, 1, 31_416, 4);

/// From 1/32,000,000 rad/s.
pub const DEGREES_PER_MINUTE: WrittenUnit = unit!(
    3_375_000_000_000 / 3_141_592_653_589_793,
    1,
    930_842_268,
    7
);

/// From 0.01 m/s.
pub const KNOTS: WrittenUnit = unit!(900 / 463, 2, range::SPEED.high as u64, 6);

/// From 0.01 m/s.
pub const KILOMETRES_PER_HOUR: WrittenUnit = unit!(18 / 5, 2, range::SPEED.high as u64, 6);

/// From 0.01 m/s.
pub const METRES_PER_SECOND: WrittenUnit = unit!(1 / 1, 2, range::SPEED.high as u64, 5);

/// Depth, from 0.01 m.
pub const METRES: WrittenUnit = unit!(1 / 1, 2, 1_200_000, 7);

/// Depth, from 0.01 m.
pub const FEET: WrittenUnit = unit!(125 / 381, 1, 1_200_000, 6);

/// Depth, from 0.01 m.
pub const FATHOMS: WrittenUnit = unit!(125 / 2_286, 1, 1_200_000, 5);

/// The transducer's offset, from 0.001 m.
pub const OFFSET_METRES: WrittenUnit = unit!(1 / 10, 2, 32_764, 4);

/// The range of the depth scale, from 10 m.
pub const RANGE_METRES: WrittenUnit = unit!(100 / 1, 1, 252, 5);

/// Total and trip distance, from metres.
pub const NAUTICAL_MILES: WrittenUnit = unit!(25 / 463, 2, 3_704_000_000, 9);

/// The distance from the track, from 0.01 m.
pub const TRACK_MILES: WrittenUnit = unit!(5 / 926, 3, 18_520_000, 6);

/// Minutes of latitude and longitude, from 1e-7 degree.
pub const MINUTES: WrittenUnit = unit!(3 / 50, 4, 1_800_000_000, 9);

/// The same from 1e-16 degree.
pub const FIX_MINUTES: WrittenUnit = unit!(3 / 50_000_000_000, 4, 1_800_000_000_000_000_000, 9);

/// Altitude, from 1e-6 m.
pub const ALTITUDE_METRES: WrittenUnit = unit!(1 / 100_000, 1, 9_999_900_000, 5);

/// The geoid's height, from 0.01 m.
pub const SEPARATION_METRES: WrittenUnit = unit!(1 / 10, 1, 99_990, 4);

/// Dilution of precision, from hundredths.
pub const DILUTION: WrittenUnit = unit!(1 / 1, 2, 9_999, 4);

/// Degrees Celsius, from thousandths of a degree.
pub const CELSIUS: WrittenUnit = unit!(1 / 100, 1, 100_000, 4);
