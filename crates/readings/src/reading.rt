ghost use Rattle.std.specs.Prelude.{◌≡◌, ◌↔◌, All, IsSome, IsTrue};
ghost use Rattle.std.specs.List.{AllByRecursion};
ghost use Rattle.readings.specs.Rows.{IsValid, row_of, principal};
ghost use Rattle.readings.specs.Ranges.{IsWithin};

use crate::range::{
    ALTITUDE, ANGLE, CROSS_TRACK, DATE, DEPTH, DEPTH_SCALE, DEVIATION, FIX_LATITUDE, FIX_LONGITUDE,
    HDOP, LATITUDE, LONGITUDE, METHOD, OFFSET, RATE_OF_TURN, RUDDER, Range, SATELLITES, SEPARATION,
    SPEED, TIME, WATER_DISTANCE, WATER_TEMPERATURE,
};
use crate::rows::Row;

/// What one message says: the raw values of its row. A value is `None` where it isn't available.
///
/// Angles are in 1e-4 radian, speeds in 0.01 m/s, dates in days since 1970-01-01 and times in 1e-4
/// second since midnight (UTC).
#[derive(Clone, Copy)]
pub enum Reading {
    /// The heading, clockwise from true north.
    HeadingTrue {
        heading: Option<i64>,
    },

    /// The heading, clockwise from magnetic north. East is positive in deviation and variation.
    HeadingMagnetic {
        heading: Option<i64>,
        deviation: Option<i64>,
        variation: Option<i64>,
    },

    /// The rate of turn in 1/32,000,000 rad/s; to starboard is positive.
    RateOfTurn {
        rate: Option<i64>,
    },

    /// The angle of the only rudder, or of the first one; below zero it is to port.
    RudderFirst {
        position: Option<i64>,
    },

    /// The angle of the second rudder; below zero it is to port.
    RudderSecond {
        position: Option<i64>,
    },

    /// The speed through the water.
    WaterSpeed {
        speed: Option<i64>,
    },

    /// The depth below the transducer in 0.01 m, the transducer's offset from the waterline or the
    /// keel in 0.001 m, and the range of the depth scale in 10 m.
    Depth {
        depth: Option<i64>,
        offset: Option<i64>,
        range: Option<i64>,
    },

    /// The total and the trip distance through the water in metres.
    DistanceLog {
        log: Option<i64>,
        trip: Option<i64>,
    },

    /// Latitude and longitude in 1e-7 degree; north and east are positive.
    Position {
        latitude: Option<i64>,
        longitude: Option<i64>,
    },

    /// The course over ground, from magnetic north where `magnetic` and else from true north, and
    /// the speed over ground.
    CourseSpeed {
        magnetic: bool,
        course: Option<i64>,
        speed: Option<i64>,
    },

    /// A satellite fix: latitude and longitude in 1e-16 degree, the altitude in 1e-6 m, the method
    /// of the fix (0, no fix, to 8, simulated), the number of satellites, the horizontal dilution of
    /// precision in 0.01, and the geoid's height above the ellipsoid in 0.01 m.
    Gnss {
        date: Option<i64>,
        time: Option<i64>,
        latitude: Option<i64>,
        longitude: Option<i64>,
        altitude: Option<i64>,
        method: u8,
        satellites: Option<i64>,
        hdop: Option<i64>,
        separation: Option<i64>,
    },

    /// The date and the time of day.
    Time {
        date: Option<i64>,
        time: Option<i64>,
    },

    /// The wind as it is felt aboard; the angle is from the bow.
    WindApparent {
        speed: Option<i64>,
        angle: Option<i64>,
    },

    /// The wind relative to ground or water; the angle is from the bow.
    WindTrue {
        speed: Option<i64>,
        angle: Option<i64>,
    },

    /// The wind by the compass, from magnetic north where `magnetic` and else from true north.
    WindNorth {
        magnetic: bool,
        speed: Option<i64>,
        angle: Option<i64>,
    },

    /// The temperature of the sea in thousandths of a kelvin.
    WaterTemperature {
        kelvin: Option<i64>,
    },

    /// The distance from the track in 0.01 m; where it is positive, one steers to port.
    CrossTrack {
        distance: Option<i64>,
    },
}

/// A true heading that isn't available.
impl Default for Reading {
    ghost use Rattle.std.specs.Prelude.{◌≡◌, None};
    ghost use Rattle.readings.specs.declared.reading.Reading.TheVariants.{HeadingTrue};

    ghost is_default = { λ reading. reading ≡ HeadingTrue None };

    fn default() -> Reading {
        Reading::HeadingTrue { heading: None }
    }
}

/// The row that the reading is of.
pub fn row(reading: &Reading) -> Row
    ensures { result ≡ row_of reading.now }
{
    match reading {
        Reading::HeadingTrue { .. } => Row::HeadingTrue,
        Reading::HeadingMagnetic { .. } => Row::HeadingMagnetic,
        Reading::RateOfTurn { .. } => Row::RateOfTurn,
        Reading::RudderFirst { .. } => Row::RudderFirst,
        Reading::RudderSecond { .. } => Row::RudderSecond,
        Reading::WaterSpeed { .. } => Row::WaterSpeed,
        Reading::Depth { .. } => Row::Depth,
        Reading::DistanceLog { .. } => Row::DistanceLog,
        Reading::Position { .. } => Row::Position,
        Reading::CourseSpeed { .. } => Row::CourseSpeed,
        Reading::Gnss { .. } => Row::Gnss,
        Reading::Time { .. } => Row::Time,
        Reading::WindApparent { .. } => Row::WindApparent,
        Reading::WindTrue { .. } => Row::WindTrue,
        Reading::WindNorth { .. } => Row::WindNorth,
        Reading::WaterTemperature { .. } => Row::WaterTemperature,
        Reading::CrossTrack { .. } => Row::CrossTrack,
    }
}

/// Whether the row's principal values are there, so that the reading can stand for its source.
pub fn usable(reading: &Reading) -> bool
    ensures { IsTrue result ↔ All IsSome (principal reading.now) }
{
    match *reading {
        Reading::HeadingTrue { heading } | Reading::HeadingMagnetic { heading, .. } => {
            heading.is_some()
        }
        Reading::RateOfTurn { rate } => rate.is_some(),
        Reading::RudderFirst { position } | Reading::RudderSecond { position } => {
            position.is_some()
        }
        Reading::WaterSpeed { speed } | Reading::CourseSpeed { speed, .. } => speed.is_some(),
        Reading::Depth { depth, .. } => depth.is_some(),
        Reading::DistanceLog { log, .. } => log.is_some(),
        Reading::Position {
            latitude,
            longitude,
        }
        | Reading::Gnss {
            latitude,
            longitude,
            ..
        } => latitude.is_some() && longitude.is_some(),
        Reading::Time { date, time } => date.is_some() && time.is_some(),
        Reading::WindApparent { speed, angle }
        | Reading::WindTrue { speed, angle }
        | Reading::WindNorth { speed, angle, .. } => speed.is_some() && angle.is_some(),
        Reading::WaterTemperature { kelvin } => kelvin.is_some(),
        Reading::CrossTrack { distance } => distance.is_some(),
    }
}

/// Whether each value that is there is in its range.
pub fn valid(reading: &Reading) -> bool
    ensures { IsTrue result ↔ IsValid reading.now }
{
    match *reading {
        Reading::HeadingTrue { heading } => are_within(&[(ANGLE, heading)]),
        Reading::HeadingMagnetic {
            heading,
            deviation,
            variation,
        } => {
            are_within(&[
                (ANGLE, heading),
                (DEVIATION, deviation),
                (DEVIATION, variation),
            ])
        }
        Reading::RateOfTurn { rate } => are_within(&[(RATE_OF_TURN, rate)]),
        Reading::RudderFirst { position } | Reading::RudderSecond { position } => {
            are_within(&[(RUDDER, position)])
        }
        Reading::WaterSpeed { speed } => are_within(&[(SPEED, speed)]),
        Reading::Depth {
            depth,
            offset,
            range,
        } => { are_within(&[(DEPTH, depth), (OFFSET, offset), (DEPTH_SCALE, range)]) }
        Reading::DistanceLog { log, trip } => {
            are_within(&[(WATER_DISTANCE, log), (WATER_DISTANCE, trip)])
        }
        Reading::Position {
            latitude,
            longitude,
        } => { are_within(&[(LATITUDE, latitude), (LONGITUDE, longitude)]) }
        Reading::CourseSpeed { course, speed, .. } => are_within(&[
            (ANGLE, course),
            (SPEED, speed),
        ]),
        Reading::Gnss {
            date,
            time,
            latitude,
            longitude,
            altitude,
            method,
            satellites,
            hdop,
            separation,
        } => {
            are_within(&[
                (DATE, date),
                (TIME, time),
                (FIX_LATITUDE, latitude),
                (FIX_LONGITUDE, longitude),
                (ALTITUDE, altitude),
                (METHOD, Some(i64::from(method))),
                (SATELLITES, satellites),
                (HDOP, hdop),
                (SEPARATION, separation),
            ])
        }
        Reading::Time { date, time } => are_within(&[(DATE, date), (TIME, time)]),
        Reading::WindApparent { speed, angle }
        | Reading::WindTrue { speed, angle }
        | Reading::WindNorth { speed, angle, .. } => are_within(&[(SPEED, speed), (ANGLE, angle)]),
        Reading::WaterTemperature { kelvin } => are_within(&[(WATER_TEMPERATURE, kelvin)]),
        Reading::CrossTrack { distance } => are_within(&[(CROSS_TRACK, distance)]),
    }
}

/// Whether each value that is there is in the range beside it.
#[tactic(auto, using(crate::proofs::Ranges::by_recursion))]
fn are_within(limits: &[(Range, Option<i64>)]) -> bool
    ensures { IsTrue result ↔ AllByRecursion IsWithin limits.now }
{
    limits.iter().all(|(range, value)| range.admits(*value))
}
