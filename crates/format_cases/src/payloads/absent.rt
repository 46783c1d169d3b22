//! The reading of each row of which nothing is available.

use readings::Reading;

pub(super) const NO_TRUE_HEADING: Reading = Reading::HeadingTrue { heading: None };

pub(super) const NO_MAGNETIC_HEADING: Reading = Reading::HeadingMagnetic {
    heading: None,
    deviation: None,
    variation: None,
};

pub(super) const NO_RATE_OF_TURN: Reading = Reading::RateOfTurn { rate: None };

pub(super) const NO_FIRST_RUDDER: Reading = Reading::RudderFirst { position: None };

pub(super) const NO_SECOND_RUDDER: Reading = Reading::RudderSecond { position: None };

pub(super) const NO_WATER_SPEED: Reading = Reading::WaterSpeed { speed: None };

pub(super) const NO_DEPTH: Reading = Reading::Depth {
    depth: None,
    offset: None,
    range: None,
};

pub(super) const NO_DISTANCE: Reading = Reading::DistanceLog {
    log: None,
    trip: None,
};

pub(super) const NO_POSITION: Reading = Reading::Position {
    latitude: None,
    longitude: None,
};

pub(super) const NO_COURSE: Reading = Reading::CourseSpeed {
    magnetic: false,
    course: None,
    speed: None,
};

pub(super) const NO_FIX: Reading = Reading::Gnss {
    date: None,
    time: None,
    latitude: None,
    longitude: None,
    altitude: None,
    method: 0,
    satellites: None,
    hdop: None,
    separation: None,
};

pub(super) const NO_TIME: Reading = Reading::Time {
    date: None,
    time: None,
};

pub(super) const NO_APPARENT_WIND: Reading = Reading::WindApparent {
    speed: None,
    angle: None,
};

pub(super) const NO_TRUE_WIND: Reading = Reading::WindTrue {
    speed: None,
    angle: None,
};

pub(super) const NO_WIND_BY_NORTH: Reading = Reading::WindNorth {
    magnetic: false,
    speed: None,
    angle: None,
};

pub(super) const NO_TEMPERATURE: Reading = Reading::WaterTemperature { kelvin: None };

pub(super) const NO_CROSS_TRACK: Reading = Reading::CrossTrack { distance: None };
