//! RMC, recommended minimum data: `$GPRMC,221320.00,A,1300.0000,N,18000.0000,W,9.99,90.0,141123,2.0,E,A*2A`.
//!
//! 1 time as hhmmss.ss, 2 the status: `A` valid, `V` not, 3 and 4 latitude as ddmm.mmmm and `N` or `S`, 5 and 6
//! longitude as dddmm.mmmm and `E` or `W`, 7 speed over ground in knots, 8 course over ground in degrees true, 9 date as
//! ddmmyy, 10 and 11 variation and `E` or `W`, 12 the mode: `A` autonomous, `N` not valid. Status and mode are written as `A`. Time, date
//! and variation are not read.

ghost use Rattle.std.specs.Prelude.{◌≡◌, [], codes, IsTrue};
ghost use Rattle.std.specs.List.{list_all};
ghost use Rattle.readings.specs.Ranges.{Admits, Holds, date as date_range};
ghost use Rattle.sentence_text.specs.Byte.{is_capital};
ghost use Rattle.sentence_profile.specs.Calendar.{civil_date as civil};
ghost use Rattle.sentence_profile.specs.Columns.{fields_in};
ghost use Rattle.sentence_profile.specs.Reading as spec;
ghost use Rattle.sentence_profile.specs.Rmc.{IsMinimum, date_number, date_said, rmc_text};

use crate::column::{is_blank, is_invalid_mode, status, unkept};
use crate::letter::{beside, only_if};
use crate::number::number;
use crate::position::coordinate;
use crate::zda::{civil_date, year_of};
use readings::Reading;
use sentence_fields::Field::{Angle, Decimal, Degrees, Digits, Letter, Magnitude, Side, Time};
use sentence_fields::written_unit::{DEGREES, KNOTS, MINUTES};
use sentence_fields::{SentenceText, write_sentence};
use sentence_profile::{FieldFault, Minimum, read_unit};
use sentence_text::Sentence;

/// The date as the number ddmmyy.
fn date_number(day: i64) -> u64
    requires { Holds date_range day }
    ensures { result ≡ date_number (civil day) }
{
    let date = civil_date(day);
    date.day as u64 % 100 * 10_000 + date.month as u64 % 100 * 100 + year_of(date) % 100
}

fn date_said(day: Option<i64>) -> Option<u64>
    requires { Admits date_range day }
    ensures { result ≡ date_said day }
{
    match day {
        Some(day) => Some(date_number(day)),
        None => None,
    }
}

/// Says these values in one sentence of the talker, which `out`, empty before, then holds.
pub fn write_rmc(talker: [u8; 2], says: &Minimum, out: &mut SentenceText)
    requires empty { out.old.bytes.items ≡ [] }
    requires values { IsMinimum says.now }
    requires talker { IsTrue (list_all is_capital talker) }
    ensures { out.new.bytes.items ≡ rmc_text talker says.now }
{
    let fields = [
        Time(says.time),
        Letter(b'A'),
        Degrees(says.latitude, MINUTES, 2),
        Side(says.latitude, MINUTES, b'N', b'S'),
        Degrees(says.longitude, MINUTES, 3),
        Side(says.longitude, MINUTES, b'E', b'W'),
        Decimal(says.speed, KNOTS),
        Angle(says.course),
        Digits(date_said(says.date), 6),
        Magnitude(says.variation, DEGREES),
        Side(says.variation, DEGREES, b'E', b'W'),
        Letter(b'A'),
    ];
    write_sentence(talker, *b"RMC", &fields, out);
}

/// Whether the status is `A`. It may be empty if position, speed and course are.
fn is_valid(sentence: &Sentence<'_>) -> Result<bool, FieldFault>
    ensures { result ≡ spec.minimum_status (fields_in sentence.now) }
{
    let no_position = is_blank(sentence, 3) && is_blank(sentence, 5);
    let nothing = no_position && is_blank(sentence, 7) && is_blank(sentence, 8);
    status(sentence, 2, nothing)
}

/// The position, and the course and speed that are read. A status of `V` or a mode of `N` makes them all absent.
#[tactic(auto, unfolding(sentence_profile::specs::Reading::rmc))]
pub(crate) fn read(sentence: &Sentence<'_>) -> Result<(Reading, Option<Reading>), FieldFault>
    ensures { result ≡ spec.rmc (fields_in sentence.now) }
{
    unkept(sentence, 1)?;
    let valid = is_valid(sentence)?;
    let latitude = coordinate(sentence, 3, read_unit::LATITUDE, 4, b'N', b'S')?;
    let longitude = coordinate(sentence, 5, read_unit::LONGITUDE, 5, b'E', b'W')?;
    let speed = number(sentence, 7, read_unit::KNOTS)?;
    let course = number(sentence, 8, read_unit::ANGLE)?;
    unkept(sentence, 9)?;
    let kept = valid && !is_invalid_mode(sentence, 12);
    let position = Reading::Position {
        latitude: only_if(kept, beside(latitude, longitude)),
        longitude: only_if(kept, beside(longitude, latitude)),
    };
    let course_speed = Reading::CourseSpeed {
        magnetic: false,
        course: only_if(kept, course),
        speed: only_if(kept, speed),
    };
    Ok((position, Some(course_speed)))
}
