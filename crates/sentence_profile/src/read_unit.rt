//! The quantities that sentences write. What is written times the fraction, rounded to the nearest whole number,
//! is the raw value.

use readings::range;

/// A quantity in a unit of a sentence: the fraction to raw values, the largest raw value of either sign, and
/// whether a sign may be written.
#[derive(Clone, Copy)]
pub struct ReadUnit {
    pub num: u64,
    pub den: u64,
    pub most: u64,
    pub signed: bool,
}

/// A unit by its fraction, the largest raw value, and whether a sign may be written.
macro_rules! unit {
    ($num:literal / $den:literal, $most:expr, $signed:literal) => {
        ReadUnit {
            num: $num,
            den: $den,
            most: $most,
            signed: $signed,
        }
    };
}

/// Headings, courses and the angle of the wind in degrees, to 1e-4 radian; pi is 3.141592653589793.
pub const ANGLE: ReadUnit = unit!(3_141_592_653_589_793 / 18_000_000_000_000, 62_832, false);

/// Deviation and variation in degrees, with a letter for the sign.
pub const DEVIATION: ReadUnit = unit!(3_141_592_653_589_793 / 18_000_000_000_000, 31_416, false);

/// A rudder in degrees.
pub const RUDDER: ReadUnit = unit!(3_141_592_653_589_793 / 18_000_000_000_000, 15_708, true);

/// Degrees a minute, to 1/32,000,000 rad/s.
pub const RATE_OF_TURN: ReadUnit = unit!(
    3_141_592_653_589_793 / 337_500_000_000,
    930_842_268,
    true
);

/// Knots, to 0.01 m/s.
pub const KNOTS: ReadUnit = unit!(463 / 9, range::SPEED.high as u64, false);

pub const KILOMETRES_PER_HOUR: ReadUnit = unit!(250 / 9, range::SPEED.high as u64, false);

pub const METRES_PER_SECOND: ReadUnit = unit!(100 / 1, range::SPEED.high as u64, false);

/// A depth in metres, to 0.01 m.
pub const METRES: ReadUnit = unit!(100 / 1, 1_200_000, false);

/// The transducer's offset in metres, to 0.001 m.
pub const OFFSET_METRES: ReadUnit = unit!(1_000 / 1, 32_764, true);

/// The range of a depth's scale in metres, to 10 m.
pub const RANGE_METRES: ReadUnit = unit!(1 / 10, 252, false);

/// A distance through the water, to metres.
pub const NAUTICAL_MILES: ReadUnit = unit!(1_852 / 1, 3_704_000_000, false);

/// The distance from the track in nautical miles, with a letter for the sign, to 0.01 m.
pub const TRACK_MILES: ReadUnit = unit!(185_200 / 1, 18_520_000, false);

/// Minutes of latitude, to 1e-7 degree.
pub const LATITUDE: ReadUnit = unit!(500_000 / 3, 900_000_000, false);

/// Minutes of longitude, to 1e-7 degree.
pub const LONGITUDE: ReadUnit = unit!(500_000 / 3, 1_800_000_000, false);

/// Minutes of a fix's latitude, to 1e-16 degree.
pub const FIX_LATITUDE: ReadUnit = unit!(500_000_000_000_000 / 3, 900_000_000_000_000_000, false);

/// Minutes of a fix's longitude, to 1e-16 degree.
pub const FIX_LONGITUDE: ReadUnit = unit!(
    500_000_000_000_000 / 3,
    1_800_000_000_000_000_000,
    false
);

/// The altitude of a fix in metres, to 1e-6 m.
pub const ALTITUDE_METRES: ReadUnit = unit!(1_000_000 / 1, 9_999_900_000, true);

/// The geoid's height in metres, to 0.01 m.
pub const SEPARATION_METRES: ReadUnit = unit!(100 / 1, 99_990, true);

/// The horizontal dilution of precision, to hundredths.
pub const DILUTION: ReadUnit = unit!(100 / 1, 9_999, false);

/// Degrees Celsius, to thousandths of a degree.
pub const CELSIUS: ReadUnit = unit!(1_000 / 1, 100_000, true);
