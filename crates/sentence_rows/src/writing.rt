ghost use Rattle.std.specs.Prelude.{◌≡◌, [], All, IsTrue};
ghost use Rattle.std.specs.List.{list_all};
ghost use Rattle.readings.specs.Rows.{IsValid};
ghost use Rattle.sentence_text.specs.Byte.{is_capital};
ghost use Rattle.sentence_fields.specs.Field.{texts_of};
ghost use Rattle.sentence_profile.specs.Stable.{IsSaid, IsStable};
ghost use Rattle.sentence_profile.specs.Writing.{IsText};
ghost use Rattle.sentence_rows.specs.Ready.{IsReady};

use crate::letter::beside;
use crate::{dbt, dpt, gga, gll, hdg, hdt, mtw, mwd, mwv, rot, rsa, ths, vhw, vlw, vtg, xte, zda};
use readings::Reading;
use sentence_fields::Lines;

/// Says the reading in its sentences.
fn say(reading: &Reading, talker: [u8; 2], ths: bool, out: &mut Lines)
    requires empty { out.old.items ≡ [] }
    requires ready { IsReady talker out.old.items }
    requires valid { IsValid reading.now }
    ensures { IsSaid reading.now talker ths (texts_of out.new) }
{
    match *reading {
        Reading::HeadingTrue { heading } => {
            hdt::hdt(talker, heading, out);
            if ths {
                ths::ths(talker, heading, out);
            }
        }
        Reading::HeadingMagnetic {
            heading,
            deviation,
            variation,
        } => hdg::hdg(talker, heading, deviation, variation, out),
        Reading::RateOfTurn { rate } => rot::rot(talker, rate, out),
        Reading::RudderFirst { position } => rsa::rsa_first(talker, position, out),
        Reading::RudderSecond { position } => rsa::rsa_second(talker, position, out),
        Reading::WaterSpeed { speed } => vhw::vhw(talker, speed, out),
        Reading::Depth {
            depth,
            offset,
            range,
        } => {
            dpt::dpt(talker, depth, offset, range, out);
            dbt::dbt(talker, depth, out);
        }
        Reading::DistanceLog { log, trip } => vlw::vlw(talker, log, trip, out),
        Reading::Position {
            latitude,
            longitude,
        } => {
            gll::gll(
                talker,
                beside(latitude, longitude),
                beside(longitude, latitude),
                out,
            );
        }
        Reading::CourseSpeed {
            magnetic,
            course,
            speed,
        } => vtg::vtg(talker, magnetic, course, speed, out),
        Reading::Gnss {
            time,
            latitude,
            longitude,
            altitude,
            method,
            satellites,
            hdop,
            separation,
            ..
        } => {
            let fix = gga::Fix {
                time,
                latitude: beside(latitude, longitude),
                longitude: beside(longitude, latitude),
                altitude,
                method,
                satellites,
                hdop,
                separation,
            };
            gga::gga(talker, fix, out);
        }
        Reading::Time { date, time } => zda::zda(talker, date, time, out),
        Reading::WindApparent { speed, angle } => mwv::mwv(talker, b'R', speed, angle, out),
        Reading::WindTrue { speed, angle } => mwv::mwv(talker, b'T', speed, angle, out),
        Reading::WindNorth {
            magnetic,
            speed,
            angle,
        } => mwd::mwd(talker, magnetic, speed, angle, out),
        Reading::WaterTemperature { kelvin } => mtw::mtw(talker, kelvin, out),
        Reading::CrossTrack { distance } => xte::xte(talker, distance, out),
    }
}

/// Says the reading in one or two sentences of the talker, which `out`, empty before, then holds. A true heading
/// is said in THS besides HDT where `ths`.
pub fn sentences(reading: &Reading, talker: [u8; 2], ths: bool, out: &mut Lines)
    requires empty { out.old.items ≡ [] }
    requires valid { IsValid reading.now }
    requires talker { IsTrue (list_all is_capital talker) }
    // The lines are the sentences of the reading.
    ensures said { IsText reading.now talker ths (texts_of out.new) }
    // Each line is read as one reading, which is said in it again.
    ensures stable { All (IsStable talker ths) (texts_of out.new) }
{
    say(reading, talker, ths, out);
}
