//! The messages of the profile by their numbers: how each comes over the bus, how its payload is read, and how each reading is written.

ghost use Rattle.std.specs.Prelude.{◌≡◌, []};
ghost use Rattle.readings.specs.Rows.{IsValid, row_of};
ghost use Rattle.pgn_profile.specs.Profiled.{GivesValid, kind_of, payload_of, pgn_of, priority_of, profiled};

use crate::kinds::Kind;
use crate::piece::Payload;
use crate::profiled::Profiled;
use crate::steering::Rudder;
use crate::wind::Wind;
use crate::{heading, position, steering, time, water, wind};
use readings::{Reading, Row, row};

// The parameter group numbers of the profile, by canboat's names.
const SYSTEM_TIME: u32 = 126_992;

const RUDDER: u32 = 127_245;

const VESSEL_HEADING: u32 = 127_250;

const RATE_OF_TURN: u32 = 127_251;

const SPEED: u32 = 128_259;

const WATER_DEPTH: u32 = 128_267;

const DISTANCE_LOG: u32 = 128_275;

const POSITION_RAPID_UPDATE: u32 = 129_025;

const COG_SOG_RAPID_UPDATE: u32 = 129_026;

const GNSS_POSITION_DATA: u32 = 129_029;

const TIME_AND_DATE: u32 = 129_033;

const CROSS_TRACK_ERROR: u32 = 129_283;

const WIND_DATA: u32 = 130_306;

const TEMPERATURE: u32 = 130_312;

const TEMPERATURE_EXTENDED_RANGE: u32 = 130_316;

/// How a message of the PGN comes over the bus.
#[tactic(auto, unfolding(crate::specs::Layout::messages))]
pub fn kind(pgn: u32) -> Kind
    ensures { result ≡ kind_of pgn }
{
    match pgn {
        DISTANCE_LOG | GNSS_POSITION_DATA => Kind::Fast,
        SYSTEM_TIME
        | RUDDER
        | VESSEL_HEADING
        | RATE_OF_TURN
        | SPEED
        | WATER_DEPTH
        | POSITION_RAPID_UPDATE
        | COG_SOG_RAPID_UPDATE
        | TIME_AND_DATE
        | CROSS_TRACK_ERROR
        | WIND_DATA
        | TEMPERATURE
        | TEMPERATURE_EXTENDED_RANGE => Kind::Single,
        _ => Kind::Outside,
    }
}

/// Reads the payload of a message of the PGN.
///
/// It is always a call: what a gateway does with the many frames that complete no message is slower where a copy of this stands among it.
#[inline(never)]
pub fn read(pgn: u32, payload: &[u8]) -> Profiled
    ensures value { result ≡ profiled pgn payload.now }
    ensures valid { GivesValid result }
{
    read_in_place(pgn, payload)
}

/// As `read`, with a copy in its caller, where the reading need not go by way of memory: for one that reads of nearly each frame. So each
/// function that reads a message has its copy here.
#[inline(always)]
#[tactic(auto, unfolding(crate::specs::Layout::messages))]
pub fn read_in_place(pgn: u32, payload: &[u8]) -> Profiled
    ensures value { result ≡ profiled pgn payload.now }
    ensures valid { GivesValid result }
{
    match pgn {
        VESSEL_HEADING => heading::read_heading(payload),
        RATE_OF_TURN => heading::read_rate_of_turn(payload),
        RUDDER => steering::read_rudder(payload),
        SPEED => water::read_water_speed(payload),
        WATER_DEPTH => water::read_depth(payload),
        DISTANCE_LOG => water::read_distance_log(payload),
        POSITION_RAPID_UPDATE => position::read_position(payload),
        COG_SOG_RAPID_UPDATE => position::read_course(payload),
        GNSS_POSITION_DATA => position::read_fix(payload),
        SYSTEM_TIME => time::read_system_time(payload),
        TIME_AND_DATE => time::read_time_and_date(payload),
        WIND_DATA => wind::read_wind(payload),
        TEMPERATURE => water::read_temperature(payload),
        TEMPERATURE_EXTENDED_RANGE => water::read_extended_temperature(payload),
        CROSS_TRACK_ERROR => position::read_cross_track(payload),
        _ => Profiled::Outside,
    }
}

/// The priority with which a reading of the row is sent; 0 is the most urgent.
pub fn priority(row: Row) -> u8
    ensures { result ≡ priority_of row }
{
    row.priority()
}

/// Writes the payload of a valid reading to `out`, which is empty, and answers its PGN.
#[tactic(auto, using(crate::proofs::Law::law))]
pub fn write(reading: &Reading, out: &mut Payload) -> u32
    requires empty { out.old.items ≡ [] }
    requires valid { IsValid reading.now }

    ensures payload { out.new.items ≡ payload_of reading.now }
    ensures pgn { result ≡ pgn_of (row_of reading.now) }

    // What was written is read as the reading.
    ensures read_back { profiled result out.new.items ≡ Profiled.Reading reading.now }
{
    write_payload(reading, out);
    row(reading).pgn()
}

/// Writes the payload of the reading.
fn write_payload(reading: &Reading, out: &mut Payload)
    requires empty { out.old.items ≡ [] }
    requires valid { IsValid reading.now }
    ensures { out.new.items ≡ payload_of reading.now }
{
    match *reading {
        Reading::HeadingTrue { heading } => heading::write_true(heading, out),
        Reading::HeadingMagnetic {
            heading,
            deviation,
            variation,
        } => heading::write_magnetic(heading, deviation, variation, out),
        Reading::RateOfTurn { rate } => heading::write_rate_of_turn(rate, out),
        Reading::RudderFirst { position } => steering::write_rudder(Rudder::First, position, out),
        Reading::RudderSecond { position } => steering::write_rudder(Rudder::Second, position, out),
        Reading::WaterSpeed { speed } => water::write_water_speed(speed, out),
        Reading::Depth {
            depth,
            offset,
            range,
        } => water::write_depth(depth, offset, range, out),
        Reading::DistanceLog { log, trip } => water::write_distance_log(log, trip, out),
        Reading::Position {
            latitude,
            longitude,
        } => position::write_position(latitude, longitude, out),
        Reading::CourseSpeed {
            magnetic,
            course,
            speed,
        } => position::write_course(magnetic, course, speed, out),
        Reading::Gnss { .. } => position::write_fix(reading, out),
        Reading::Time { date, time } => time::write_system_time(date, time, out),
        Reading::WindApparent { speed, angle } => wind::write(Wind::Apparent, speed, angle, out),
        Reading::WindTrue { speed, angle } => wind::write(Wind::True, speed, angle, out),
        Reading::WindNorth {
            magnetic,
            speed,
            angle,
        } => wind::write(Wind::North { magnetic }, speed, angle, out),
        Reading::WaterTemperature { kelvin } => water::write_extended_temperature(kelvin, out),
        Reading::CrossTrack { distance } => position::write_cross_track(distance, out),
    }
}
