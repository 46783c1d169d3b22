//! The fields of a sentence that are numbers, with the letters of their units and of their signs.

ghost use Rattle.std.specs.Prelude.{◌≡◌, ◌+◌, ◌<◌, ◌≤◌, ◌^◌, IfOk, IsTrue, unsigned_abs};
ghost use Rattle.sentence_profile.specs.Columns as spec;
ghost use Rattle.sentence_profile.specs.Columns.{is_fit};

use crate::column::{field, is_letter, side, unit_letter, unkept};
use sentence_profile::FieldFault;
use sentence_profile::read_unit::{KILOMETRES_PER_HOUR, KNOTS, METRES_PER_SECOND, ReadUnit};
use sentence_text::Sentence;
use unit_fraction::{Decimal, DecimalFault, Fraction, read_decimal, scale_decimal};

/// A decimal, with a sign only where there may be one; None where the field is empty.
#[tactic(auto, unfolding(sentence_profile::specs::Columns::decimal), using(sentence_profile::proofs::Columns::scalable))]
fn decimal(
    sentence: &Sentence<'_>,
    at: u8,
    may_be_signed: bool,
) -> Result<Option<Decimal>, FieldFault>
    ensures exact { result ≡ spec.decimal (spec.fields_in sentence.now) at may_be_signed }
    ensures few { IfOk result spec.IsScalable }
{
    let text = match field(sentence, at) {
        Some(text) => text,
        None => return Err(FieldFault::Form(at)),
    };
    match read_decimal(text) {
        Ok(decimal) => {
            if decimal.negative && !may_be_signed {
                Err(FieldFault::Form(at))
            } else {
                Ok(Some(decimal))
            }
        }
        Err(DecimalFault::Empty) => Ok(None),
        Err(DecimalFault::Byte(_) | DecimalFault::Long) => Err(FieldFault::Form(at)),
    }
}

/// The raw value of a decimal.
#[tactic(auto, unfolding(sentence_profile::specs::Columns::raw_of))]
fn raw_of(q: ReadUnit, decimal: &Decimal) -> i128
    requires fit { IsTrue (is_fit q) }
    requires digits { decimal.now.digits < 10 ^ 14 }
    requires places { decimal.now.places ≤ 12 }
    ensures { result ≡ spec.raw_of q decimal.now }
{
    let fraction = Fraction {
        num: q.num,
        den: q.den,
    };
    scale_decimal(fraction, decimal)
}

/// The raw value of what is written, within the quantity's range.
pub(crate) fn scaled(
    at: u8,
    q: ReadUnit,
    decimal: Option<Decimal>,
) -> Result<Option<i64>, FieldFault>
    requires fit { IsTrue (is_fit q) }
    requires few { spec.IsScalable decimal }
    ensures exact { result ≡ spec.scaled at q decimal }
    ensures small { IfOk result spec.IsSmall }
{
    let decimal = match decimal {
        Some(decimal) => decimal,
        None => return Ok(None),
    };
    let raw = raw_of(q, &decimal);
    if raw.unsigned_abs() <= u128::from(q.most) {
        Ok(Some(raw as i64))
    } else {
        Err(FieldFault::Range(at))
    }
}

/// The raw value of a number; None where the field is empty.
#[tactic(auto, unfolding(sentence_profile::specs::Columns::number))]
pub(crate) fn number(
    sentence: &Sentence<'_>,
    at: u8,
    q: ReadUnit,
) -> Result<Option<i64>, FieldFault>
    requires fit { IsTrue (is_fit q) }
    ensures exact { result ≡ spec.number (spec.fields_in sentence.now) at q }
    ensures small { IfOk result spec.IsSmall }
{
    let decimal = decimal(sentence, at, q.signed)?;
    scaled(at, q, decimal)
}

/// A number, and behind it the letter of its unit.
#[tactic(auto, unfolding(sentence_profile::specs::Columns::measure))]
pub(crate) fn measure(
    sentence: &Sentence<'_>,
    at: u8,
    q: ReadUnit,
    letter: u8,
) -> Result<Option<i64>, FieldFault>
    requires fit { IsTrue (is_fit q) }
    requires at { at < 100 }
    ensures exact { result ≡ spec.measure (spec.fields_in sentence.now) at q letter }
    ensures small { IfOk result spec.IsSmall }
{
    let value = number(sentence, at, q)?;
    unit_letter(sentence, at + 1, letter, value.is_none())?;
    Ok(value)
}

/// The same in two units. The second isn't kept where the first isn't empty.
#[tactic(auto, unfolding(sentence_profile::specs::Columns::either_unit))]
pub(crate) fn either_unit(
    sentence: &Sentence<'_>,
    at: u8,
    q: ReadUnit,
    letter: u8,
    other: ReadUnit,
    other_letter: u8,
) -> Result<Option<i64>, FieldFault>
    requires fit { IsTrue (is_fit q) }
    requires other_fit { IsTrue (is_fit other) }
    requires at { at < 90 }
    ensures { result ≡ spec.either_unit (spec.fields_in sentence.now) at q letter other other_letter }
{
    let value = measure(sentence, at, q, letter)?;
    if value.is_none() {
        return measure(sentence, at + 2, other, other_letter);
    }
    unkept(sentence, at + 2)?;
    unkept(sentence, at + 3)?;
    Ok(value)
}

/// The value with a minus where it is negative.
pub(crate) fn toward(negative: bool, value: Option<i64>) -> Option<i64>
    requires { spec.IsSmall value }
    ensures { result ≡ spec.toward negative value }
{
    match value {
        Some(raw) => Some(if negative { -raw } else { raw }),
        None => None,
    }
}

/// A number, and behind it the letter of its sign.
#[tactic(auto, unfolding(sentence_profile::specs::Columns::sided))]
pub(crate) fn sided(
    sentence: &Sentence<'_>,
    at: u8,
    q: ReadUnit,
    positive: u8,
    negative: u8,
) -> Result<Option<i64>, FieldFault>
    requires fit { IsTrue (is_fit q) }
    requires at { at < 100 }
    ensures { result ≡ spec.sided (spec.fields_in sentence.now) at q positive negative }
{
    let value = number(sentence, at, q)?;
    let below = side(sentence, at + 1, positive, negative, value.is_none())?;
    Ok(toward(below, value))
}

/// The unit of a wind's speed.
fn speed_unit_of(text: &[u8], at: u8, beside_nothing: bool) -> Result<ReadUnit, FieldFault>
    ensures exact { result ≡ spec.speed_unit_of at beside_nothing text.now }
    ensures fit { IfOk result (λ q. IsTrue (is_fit q)) }
{
    if is_letter(text, b'N', beside_nothing) {
        Ok(KNOTS)
    } else if is_letter(text, b'K', false) {
        Ok(KILOMETRES_PER_HOUR)
    } else if is_letter(text, b'M', false) {
        Ok(METRES_PER_SECOND)
    } else {
        Err(FieldFault::Form(at))
    }
}

/// The unit of a wind's speed, which may be left out beside an empty value.
#[tactic(auto, unfolding(sentence_profile::specs::Columns::speed_unit))]
fn speed_unit(sentence: &Sentence<'_>, at: u8, beside_nothing: bool) -> Result<ReadUnit, FieldFault>
    ensures exact { result ≡ spec.speed_unit (spec.fields_in sentence.now) at beside_nothing }
    ensures fit { IfOk result (λ q. IsTrue (is_fit q)) }
{
    match field(sentence, at) {
        Some(text) => speed_unit_of(text, at, beside_nothing),
        None => Err(FieldFault::Form(at)),
    }
}

/// A speed whose unit stands behind it, so that its range is known only there.
#[tactic(auto, unfolding(sentence_profile::specs::Columns::wind_speed))]
pub(crate) fn wind_speed(sentence: &Sentence<'_>, at: u8) -> Result<Option<i64>, FieldFault>
    requires { at < 100 }
    ensures { result ≡ spec.wind_speed (spec.fields_in sentence.now) at }
{
    let decimal = decimal(sentence, at, false)?;
    let unit = speed_unit(sentence, at + 1, decimal.is_none())?;
    scaled(at, unit, decimal)
}
