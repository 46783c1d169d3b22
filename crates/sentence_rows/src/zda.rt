//! ZDA, time and date: `$GPZDA,221320.00,14,11,2023,00,00*60`.
//!
//! 1 time as hhmmss.ss, 2 day, 3 month, 4 year, 5 and 6 the local zone, which is always UTC.

ghost use Rattle.std.specs.Prelude.{◌≡◌, [], ◌∷◌, ◌++◌, codes, unsigned_abs};
ghost use Rattle.jiff_core.specs.Date.{epoch_day};
ghost use Rattle.readings.specs.Ranges.{Admits, Holds, date as date_range};
ghost use Rattle.sentence_fields.specs.Field.{texts_of, sentence_by};
ghost use Rattle.sentence_fields.specs.ReadBack.{IsReadBack};
ghost use Rattle.sentence_profile.specs.Writing as text;
ghost use Rattle.sentence_profile.specs.Columns.{fields_in};
ghost use Rattle.sentence_profile.specs.Reading as spec;
ghost use Rattle.sentence_rows.specs.Ready.{IsReady};

use crate::clock::{date, time};
use jiff_core::civil::Date;
use readings::Reading;
use sentence_fields::Field::{Digits, Time};
use sentence_fields::{Lines, append};
use sentence_profile::{FieldFault, read_unit};
use sentence_text::Sentence;

/// The days from the first date of the calendar, -9999-01-01, to 1970-01-01.
const DAYS_BEFORE_1970: u32 = 4_371_587;

/// The date of a day, counted from 1970-01-01.
pub(crate) fn civil_date(day: i64) -> Date
    requires { Holds date_range day }
    ensures { epoch_day result ≡ day }
{
    Date::from_days_since_min(DAYS_BEFORE_1970 + day as u32)
}

/// The year of a day that a message can name.
pub(crate) fn year_of(date: Date) -> u64
    ensures { result ≡ unsigned_abs date.year }
{
    u64::from(date.year.unsigned_abs())
}

fn append_date(talker: [u8; 2], time: Option<i64>, date: Date, out: &mut Lines)
    requires ready { IsReady talker out.old.items }
    ensures said { texts_of out.new ≡ texts_of out.old ++ sentence_by talker (codes "ZDA") (text.zda time (Some date)) ∷ [] }
    ensures again { IsReadBack talker (codes "ZDA") (text.zda time (Some date)) }
{
    let fields = [
        Time(time),
        Digits(Some(date.day as u64), 2),
        Digits(Some(date.month as u64), 2),
        Digits(Some(year_of(date)), 4),
        Digits(Some(0), 2),
        Digits(Some(0), 2),
    ];
    append(talker, *b"ZDA", &fields, out);
}

fn append_no_date(talker: [u8; 2], time: Option<i64>, out: &mut Lines)
    requires ready { IsReady talker out.old.items }
    ensures said { texts_of out.new ≡ texts_of out.old ++ sentence_by talker (codes "ZDA") (text.zda time None) ∷ [] }
    ensures again { IsReadBack talker (codes "ZDA") (text.zda time None) }
{
    let fields = [
        Time(time),
        Digits(None, 2),
        Digits(None, 2),
        Digits(None, 4),
        Digits(Some(0), 2),
        Digits(Some(0), 2),
    ];
    append(talker, *b"ZDA", &fields, out);
}

pub(crate) fn zda(talker: [u8; 2], day: Option<i64>, time: Option<i64>, out: &mut Lines)
    requires ready { IsReady talker out.old.items }
    requires day { Admits date_range day }
    ensures { text.Dated day (λ d. (texts_of out.new ≡ texts_of out.old ++ sentence_by talker (codes "ZDA") (text.zda time d) ∷ []) ×
        IsReadBack talker (codes "ZDA") (text.zda time d)) }
{
    match day {
        Some(day) => append_date(talker, time, civil_date(day), out),
        None => append_no_date(talker, time, out),
    }
}

/// The time and the date that are read. The local zone is passed over.
#[tactic(auto, unfolding(sentence_profile::specs::Reading::zda))]
pub(crate) fn read(sentence: &Sentence<'_>) -> Result<Reading, FieldFault>
    ensures { result ≡ spec.zda (fields_in sentence.now) }
{
    let time = time(sentence, 1)?;
    let date = date(sentence, 2)?;
    Ok(Reading::Time { date, time })
}
