//! Latitude and longitude, as degrees and minutes with the letter of the hemisphere behind them.

ghost use Rattle.std.specs.Prelude.{◌≡◌, ◌+◌, ◌*◌, ◌<◌, ◌≤◌, ◌^◌, IfOk, IsTrue};
ghost use Rattle.sentence_profile.specs.Columns as spec;
ghost use Rattle.sentence_profile.specs.Columns.{is_fit};

use crate::column::{field, side};
use crate::digits::fixed_in;
use crate::number::{scaled, toward};
use sentence_profile::read_unit::ReadUnit;
use sentence_profile::{FieldFault, Fixed};
use sentence_text::Sentence;
use unit_fraction::Decimal;

/// The most decimals of a minute that are read.
const MOST_DECIMALS: u8 = 9;

/// The number that minutes and their decimals write without the point.
fn without_point(minutes: u64, part: u64, places: u8) -> u64
    requires minutes { minutes ≤ 60100 }
    requires places { places ≤ 9 }
    requires part { part < 10 ^ places }
    ensures value { result ≡ minutes * 10 ^ places + part }
    ensures small { result < 10 ^ 14 }
{
    let power = 10u64.pow(u32::from(places));
    minutes * power + part
}

/// Degrees and minutes as minutes.
fn minutes_of(fixed: &Fixed) -> Decimal
    requires { spec.IsFixed 5 9 fixed.now }
    ensures value { result ≡ spec.minutes_of fixed.now }
    ensures digits { result.digits < 10 ^ 14 }
    ensures places { result.places ≤ 12 }
{
    let minutes = fixed.whole / 100 * 60 + fixed.whole % 100;
    Decimal {
        negative: false,
        digits: without_point(minutes, fixed.part, fixed.places),
        places: fixed.places,
    }
}

fn degrees_in(fixed: Option<Fixed>, at: u8, q: ReadUnit) -> Result<Option<i64>, FieldFault>
    requires fit { IsTrue (is_fit q) }
    requires few { spec.AreFixed 5 9 fixed }
    ensures exact { result ≡ spec.degrees_in at q fixed }
    ensures small { IfOk result spec.IsSmall }
{
    let fixed = match fixed {
        Some(fixed) => fixed,
        None => return Err(FieldFault::Form(at)),
    };
    if fixed.whole % 100 >= 60 {
        return Err(FieldFault::Range(at));
    }
    scaled(at, q, Some(minutes_of(&fixed)))
}

fn degrees_of(text: &[u8], at: u8, q: ReadUnit, width: u8) -> Result<Option<i64>, FieldFault>
    requires fit { IsTrue (is_fit q) }
    requires width { width ≤ 5 }
    ensures exact { result ≡ spec.degrees_of at q width text.now }
    ensures small { IfOk result spec.IsSmall }
{
    match text {
        [] => Ok(None),
        _ => degrees_in(fixed_in(text, width, MOST_DECIMALS), at, q),
    }
}

#[tactic(auto, unfolding(sentence_profile::specs::Columns::degrees))]
fn degrees(
    sentence: &Sentence<'_>,
    at: u8,
    q: ReadUnit,
    width: u8,
) -> Result<Option<i64>, FieldFault>
    requires fit { IsTrue (is_fit q) }
    requires width { width ≤ 5 }
    ensures exact { result ≡ spec.degrees (spec.fields_in sentence.now) at q width }
    ensures small { IfOk result spec.IsSmall }
{
    match field(sentence, at) {
        Some(text) => degrees_of(text, at, q, width),
        None => Err(FieldFault::Form(at)),
    }
}

/// A coordinate, of so many digits before the point, and behind it the letter of its sign.
#[tactic(auto, unfolding(sentence_profile::specs::Columns::coordinate))]
pub(crate) fn coordinate(
    sentence: &Sentence<'_>,
    at: u8,
    q: ReadUnit,
    width: u8,
    positive: u8,
    negative: u8,
) -> Result<Option<i64>, FieldFault>
    requires fit { IsTrue (is_fit q) }
    requires width { width ≤ 5 }
    requires at { at < 100 }
    ensures { result ≡ spec.coordinate (spec.fields_in sentence.now) at q width positive negative }
{
    let value = degrees(sentence, at, q, width)?;
    let below = side(sentence, at + 1, positive, negative, value.is_none())?;
    Ok(toward(below, value))
}
