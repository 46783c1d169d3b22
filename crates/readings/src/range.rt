//! The raw values that each quantity may have. Beyond them a value counts as not available on the
//! bus, and is refused from the network.

/// The raw values of a quantity, from the lowest to the highest.
#[derive(Clone, Copy)]
pub struct Range {
    pub low: i64,
    pub high: i64,
}

impl Range {
    ghost use Rattle.std.specs.Prelude.{◌↔◌, IsTrue};
    ghost use Rattle.readings.specs.Ranges.{Holds, Admits};

    /// Whether the value is in the range.
    #[inline]
    pub fn holds(&self, value: i64) -> bool
        ensures { IsTrue result ↔ Holds self.now value }
    {
        self.low <= value && value <= self.high
    }

    /// Whether the value is in the range, if there is one.
    #[inline]
    pub fn admits(&self, value: Option<i64>) -> bool
        ensures { IsTrue result ↔ Admits self.now value }
    {
        match value {
            Some(value) => self.holds(value),
            None => true,
        }
    }
}

/// The greatest unsigned number of two bytes that says something. The three above it are reserved, an error, and not available.
pub const GREATEST_U16: i64 = 65_532;

/// Headings, courses and the angle of the wind: once round, in 1e-4 radian.
pub const ANGLE: Range = Range {
    low: 0,
    high: 62_832,
};

/// Deviation and variation: half a turn to either side, in 1e-4 radian.
pub const DEVIATION: Range = Range {
    low: -31_416,
    high: 31_416,
};

/// The rate of turn, in 1/32,000,000 rad/s.
pub const RATE_OF_TURN: Range = Range {
    low: -930_842_268,
    high: 930_842_268,
};

/// A rudder: a quarter turn to either side, in 1e-4 radian.
pub const RUDDER: Range = Range {
    low: -15_708,
    high: 15_708,
};

/// Speeds of ship and wind, in 0.01 m/s.
pub const SPEED: Range = Range {
    low: 0,
    high: GREATEST_U16,
};

/// The depth below the transducer, in 0.01 m.
pub const DEPTH: Range = Range {
    low: 0,
    high: 1_200_000,
};

/// The transducer's offset, in 0.001 m.
pub const OFFSET: Range = Range {
    low: -32_764,
    high: 32_764,
};

/// The range of the depth scale, in 10 m.
pub const DEPTH_SCALE: Range = Range { low: 0, high: 252 };

/// Total and trip distance through the water, in metres.
pub const WATER_DISTANCE: Range = Range {
    low: 0,
    high: 3_704_000_000,
};

/// Latitude in 1e-7 degree.
pub const LATITUDE: Range = Range {
    low: -900_000_000,
    high: 900_000_000,
};

/// Longitude in 1e-7 degree.
pub const LONGITUDE: Range = Range {
    low: -1_800_000_000,
    high: 1_800_000_000,
};

/// Days since 1970-01-01.
pub const DATE: Range = Range {
    low: 0,
    high: GREATEST_U16,
};

/// The time of day, without leap seconds, in 1e-4 second.
pub const TIME: Range = Range {
    low: 0,
    high: 863_999_999,
};

/// Latitude of a satellite fix, in 1e-16 degree.
pub const FIX_LATITUDE: Range = Range {
    low: -900_000_000_000_000_000,
    high: 900_000_000_000_000_000,
};

/// Longitude of a satellite fix, in 1e-16 degree.
pub const FIX_LONGITUDE: Range = Range {
    low: -1_800_000_000_000_000_000,
    high: 1_800_000_000_000_000_000,
};

/// Altitude of a satellite fix, in 1e-6 m.
pub const ALTITUDE: Range = Range {
    low: -9_999_900_000,
    high: 9_999_900_000,
};

/// Method of a satellite fix.
pub const METHOD: Range = Range { low: 0, high: 8 };

/// Number of satellites.
pub const SATELLITES: Range = Range { low: 0, high: 252 };

/// Horizontal dilution of precision, in hundredths.
pub const HDOP: Range = Range {
    low: 0,
    high: 9_999,
};

/// The geoid's height above the ellipsoid, in 0.01 m.
pub const SEPARATION: Range = Range {
    low: -99_990,
    high: 99_990,
};

/// Temperature of the sea, from -100 to 100 degrees Celsius, in 0.001 K.
pub const WATER_TEMPERATURE: Range = Range {
    low: 173_150,
    high: 373_150,
};

/// Distance from the track, in 0.01 m.
pub const CROSS_TRACK: Range = Range {
    low: -18_520_000,
    high: 18_520_000,
};
