//! GGA, satellite fix: `$GPGGA,221320.00,5738.7645,N,01424.6911,E,1,09,1.05,12.3,M,17.8,M,,*6A`.
//!
//! 1 time as hhmmss.ss, 2 to 5 the position as in GLL, 6 the quality, which is the method of the fix, 7 the number of
//! satellites, 8 the horizontal dilution of precision, 9 and 10 the altitude in metres, 11 and 12 the height of the
//! geoid in metres, 13 and 14 of a differential station, which is not written.

ghost use Rattle.std.specs.Prelude.{◌≡◌, ◌≤◌, [], ◌∷◌, ◌++◌, codes};
ghost use Rattle.sentence_fields.specs.Field.{IsCounted, IsPrintable, texts_of, sentence_by};
ghost use Rattle.sentence_fields.specs.ReadBack.{IsReadBack};
ghost use Rattle.sentence_profile.specs.Writing as text;
ghost use Rattle.sentence_profile.specs.Columns.{fields_in};
ghost use Rattle.sentence_profile.specs.Reading as spec;
ghost use Rattle.sentence_rows.specs.Ready.{IsReady};

use crate::clock::time;
use crate::fix::{quality, satellites};
use crate::letter::beside;
use crate::number::{measure, number};
use crate::position::coordinate;
use readings::Reading;
use sentence_fields::Field::{self, Decimal, Degrees, Empty, Letter, Satellites, Side, Time};
use sentence_fields::written_unit::{ALTITUDE_METRES, DILUTION, FIX_MINUTES, SEPARATION_METRES};
use sentence_fields::{Lines, append, letter_where};
use sentence_profile::{FieldFault, read_unit};
use sentence_text::Sentence;

/// What is said of a fix, of whose latitude and longitude both are there or neither.
#[derive(Clone, Copy)]
pub(crate) struct Fix {
    pub time: Option<i64>,
    pub latitude: Option<i64>,
    pub longitude: Option<i64>,
    pub altitude: Option<i64>,
    pub method: u8,
    pub satellites: Option<i64>,
    pub hdop: Option<i64>,
    pub separation: Option<i64>,
}

pub(crate) fn gga(talker: [u8; 2], fix: Fix, out: &mut Lines)
    requires ready { IsReady talker out.old.items }
    requires latitude { IsCounted FIX_MINUTES fix.latitude }
    requires longitude { IsCounted FIX_MINUTES fix.longitude }
    requires altitude { IsCounted ALTITUDE_METRES fix.altitude }
    requires method { fix.method ≤ 8 }
    requires satellites { IsPrintable (Field.Satellites fix.satellites) }
    requires hdop { IsCounted DILUTION fix.hdop }
    requires separation { IsCounted SEPARATION_METRES fix.separation }
    ensures said { texts_of out.new ≡ texts_of out.old ++ sentence_by talker (codes "GGA") (text.gga fix.time fix.latitude fix.longitude fix.altitude fix.method
        fix.satellites fix.hdop fix.separation) ∷ [] }
    ensures again { IsReadBack talker (codes "GGA") (text.gga fix.time fix.latitude fix.longitude fix.altitude fix.method fix.satellites fix.hdop fix.separation) }
{
    let quality = letter_where(fix.latitude.is_some(), b'0' + fix.method, b'0');
    append(
        talker,
        *b"GGA",
        &[
            Time(fix.time),
            Degrees(fix.latitude, FIX_MINUTES, 2),
            Side(fix.latitude, FIX_MINUTES, b'N', b'S'),
            Degrees(fix.longitude, FIX_MINUTES, 3),
            Side(fix.longitude, FIX_MINUTES, b'E', b'W'),
            Letter(quality),
            Satellites(fix.satellites),
            Decimal(fix.hdop, DILUTION),
            Decimal(fix.altitude, ALTITUDE_METRES),
            Letter(b'M'),
            Decimal(fix.separation, SEPARATION_METRES),
            Letter(b'M'),
            Empty,
            Empty,
        ],
        out,
    );
}

/// The fix that is read.
#[tactic(auto, unfolding(sentence_profile::specs::Reading::gga))]
pub(crate) fn read(sentence: &Sentence<'_>) -> Result<Reading, FieldFault>
    ensures { result ≡ spec.gga (fields_in sentence.now) }
{
    let time = time(sentence, 1)?;
    let latitude = coordinate(sentence, 2, read_unit::FIX_LATITUDE, 4, b'N', b'S')?;
    let longitude = coordinate(sentence, 4, read_unit::FIX_LONGITUDE, 5, b'E', b'W')?;
    let method = quality(sentence, 6)?;
    let satellites = satellites(sentence, 7)?;
    let hdop = number(sentence, 8, read_unit::DILUTION)?;
    let altitude = measure(sentence, 9, read_unit::ALTITUDE_METRES, b'M')?;
    let separation = measure(sentence, 11, read_unit::SEPARATION_METRES, b'M')?;
    Ok(Reading::Gnss {
        date: None,
        time,
        latitude: beside(latitude, longitude),
        longitude: beside(longitude, latitude),
        altitude,
        method,
        satellites,
        hdop,
        separation,
    })
}
