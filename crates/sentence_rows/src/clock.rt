//! The time of day and the date.

ghost use Rattle.std.specs.Prelude.{◌≡◌, ◌<◌, ◌≤◌, ◌^◌, IsTrue};
ghost use Rattle.jiff_core.specs.Date.{epoch_day};
ghost use Rattle.sentence_profile.specs.Columns as spec;

use crate::column::{field, is_blank};
use crate::digits::{digits, fixed_in};
use jiff_core::civil::Date;
use readings::range::DATE;
use sentence_profile::{FieldFault, Fixed};
use sentence_text::Sentence;

/// Hours, minutes and seconds are of the day.
fn is_time(fixed: &Fixed) -> bool
    ensures { result ≡ spec.is_time fixed.now }
{
    fixed.whole / 10_000 < 24 && fixed.whole / 100 % 100 < 60 && fixed.whole % 100 < 60
}

/// The time of day in 1e-4 second.
fn time_raw(fixed: &Fixed) -> i64
    requires { spec.IsFixed 6 4 fixed.now }
    ensures { result ≡ spec.time_raw fixed.now }
{
    let seconds = fixed.whole / 10_000 * 3_600 + fixed.whole / 100 % 100 * 60 + fixed.whole % 100;
    let decimals = fixed.part * 10u64.pow(u32::from(4 - fixed.places));
    (seconds * 10_000 + decimals) as i64
}

fn time_in(fixed: Option<Fixed>, at: u8) -> Result<Option<i64>, FieldFault>
    requires { spec.AreFixed 6 4 fixed }
    ensures { result ≡ spec.time_in at fixed }
{
    match fixed {
        Some(fixed) => {
            if is_time(&fixed) {
                Ok(Some(time_raw(&fixed)))
            } else {
                Err(FieldFault::Range(at))
            }
        }
        None => Err(FieldFault::Form(at)),
    }
}

fn time_of(text: &[u8], at: u8) -> Result<Option<i64>, FieldFault>
    ensures { result ≡ spec.time_of at text.now }
{
    match text {
        [] => Ok(None),
        _ => time_in(fixed_in(text, 6, 4), at),
    }
}

/// A time of day, as hhmmss and decimals of a second; decimals that are missing are zeros.
#[tactic(auto, unfolding(sentence_profile::specs::Columns::time))]
pub(crate) fn time(sentence: &Sentence<'_>, at: u8) -> Result<Option<i64>, FieldFault>
    ensures { result ≡ spec.time (spec.fields_in sentence.now) at }
{
    match field(sentence, at) {
        Some(text) => time_of(text, at),
        None => Err(FieldFault::Form(at)),
    }
}

/// The days of a date from 1970-01-01 on.
fn days_since_1970(date: Date) -> i64
    ensures { result ≡ epoch_day date }
{
    i64::from(date.to_unix_epoch_day())
}

/// The day's number, where the calendar has the day and the bus can say it.
#[tactic(auto, unfolding(sentence_profile::specs::Columns::day_number))]
fn day_number(year: u64, month: u64, day: u64) -> Option<i64>
    requires year { year < 10 ^ 4 }
    requires month { month < 10 ^ 2 }
    requires day { day < 10 ^ 2 }
    ensures { result ≡ spec.day_number year month day }
{
    let date = match Date::new(year as i16, month as i8, day as i8) {
        Ok(date) => date,
        Err(_) => return None,
    };
    let day = days_since_1970(date);
    if DATE.holds(day) { Some(day) } else { None }
}

fn day_in(day: Option<i64>, at: u8) -> Result<Option<i64>, FieldFault>
    ensures { result ≡ spec.day_in at day }
{
    match day {
        Some(day) => Ok(Some(day)),
        None => Err(FieldFault::Range(at)),
    }
}

/// Day, month and year in three fields, all of them or none. A day that there isn't is out of the range of the
/// first.
#[tactic(auto, unfolding(sentence_profile::specs::Columns::date))]
pub(crate) fn date(sentence: &Sentence<'_>, at: u8) -> Result<Option<i64>, FieldFault>
    requires { at < 100 }
    ensures { result ≡ spec.date (spec.fields_in sentence.now) at }
{
    let none = are_blank(sentence, at);
    let day = digits(sentence, at, none, 1, 2)?;
    let month = digits(sentence, at + 1, none, 1, 2)?;
    let year = digits(sentence, at + 2, none, 4, 4)?;
    if none {
        return Ok(None);
    }
    day_in(day_number(year, month, day), at)
}

/// Whether three fields are all empty.
#[tactic(auto, unfolding(sentence_profile::specs::Columns::are_blank))]
fn are_blank(sentence: &Sentence<'_>, at: u8) -> bool
    requires { at < 100 }
    ensures { result ≡ spec.are_blank (spec.fields_in sentence.now) at }
{
    is_blank(sentence, at) && is_blank(sentence, at + 1) && is_blank(sentence, at + 2)
}
