ghost use Rattle.std.specs.Prelude.{◌≡◌, ◌+◌, ◌++◌, ◌<◌, ◌≤◌, ◌^◌, drop, length, IfOk, IsTrue, Ok, slice_index};
ghost use Rattle.std.specs.Char.{is_ascii_digit};
ghost use Rattle.std.specs.List.{prefix_len};
ghost use Rattle.std.specs.Str.{all_ascii_digits};
ghost use Rattle.unit_fraction.specs.declared.decimal.Decimal.{Decimal};
ghost use Rattle.unit_fraction.specs.Digits.{number, number_after};
ghost use Rattle.unit_fraction.specs.Reading.{IsDecimal, is_negative, unsigned, digits_of, behind_digits, part_at, behind_part, read};

use crate::decimal::{Decimal, DecimalFault};

/// More digits are no decimal of this profile.
const MOST_DIGITS: usize = 12;

/// Whether a minus comes first, and what follows it.
fn split_sign(text: &[u8]) -> (bool, &[u8])
    ensures { (result.0 ≡ is_negative text.now) × (result.1.now ≡ unsigned text.now) }
{
    match text {
        [b'-', rest @ ..] => (true, rest),
        _ => (false, text),
    }
}

/// How many digits come first.
fn digit_run(text: &[u8]) -> usize
    ensures run { result ≡ prefix_len is_ascii_digit text.now }
    ensures within { result ≤ length text.now }
{
    text.iter().take_while(|byte| byte.is_ascii_digit()).count()
}

/// The digits that come first, and what follows them.
#[tactic(auto, using(crate::proofs::Number::front_digits))]
fn split_digits(text: &[u8]) -> (&[u8], &[u8])
    ensures parts { (result.0.now ≡ digits_of text.now) × (result.1.now ≡ behind_digits text.now) }
    ensures digits { IsTrue (all_ascii_digits result.0.now) }
{
    text.split_at(digit_run(text))
}

/// The digits behind a point, and what follows them; no digits where no point comes first.
fn split_part(text: &[u8]) -> (&[u8], &[u8])
    ensures parts { (result.0.now ≡ part_at text.now) × (result.1.now ≡ behind_part text.now) }
    ensures digits { IsTrue (all_ascii_digits result.0.now) }
{
    match text {
        [b'.', rest @ ..] => split_digits(rest),
        _ => text.split_at(0),
    }
}

/// The number that the digits write behind those that were read before.
#[tactic(auto, using(crate::proofs::Number::number_step, crate::proofs::Number::number_fits, crate::proofs::Number::digit_in_range))]
fn number_behind(before: u64, digits: &[u8]) -> u64
    requires digits { IsTrue (all_ascii_digits digits.now) }
    requires fits { number_after before digits.now < 2 ^ 64 }
    ensures { result ≡ number_after before digits.now }
{
    let mut number = before;
    for digit in digits {
        number = number * 10 + (*digit - b'0') as u64;
    }
    number
}

/// The number that at most twelve digits write.
#[tactic(auto, using(crate::proofs::Number::number_small, crate::proofs::Number::both_small, crate::proofs::Number::number_after_append))]
fn number_of(whole: &[u8], part: &[u8]) -> u64
    requires whole { IsTrue (all_ascii_digits whole.now) }
    requires part { IsTrue (all_ascii_digits part.now) }
    requires few { length whole.now + length part.now ≤ 12 }
    ensures { result ≡ number (whole.now ++ part.now) }
{
    number_behind(number_behind(0, whole), part)
}

#[tactic(auto, unfolding(crate::specs::Reading::read))]
fn parse(text: &[u8]) -> Result<Decimal, DecimalFault>
    ensures { result ≡ read text.now }
{
    if text.is_empty() {
        return Err(DecimalFault::Empty);
    }
    let (negative, unsigned) = split_sign(text);
    let (whole, rest) = split_digits(unsigned);
    let (part, rest) = split_part(rest);
    if !rest.is_empty() || whole.len() + part.len() == 0 {
        return Err(DecimalFault::Byte(text.len() - rest.len()));
    }
    if whole.len() + part.len() > MOST_DIGITS {
        return Err(DecimalFault::Long);
    }
    Ok(Decimal {
        negative,
        digits: number_of(whole, part),
        places: part.len() as u8,
    })
}

/// The decimal that the whole text writes: a minus or none, and at most twelve digits with at most one point
/// among, before or behind them.
#[tactic(auto, using(crate::proofs::DecimalLaws::is_decimal, crate::proofs::DecimalLaws::is_read))]
pub fn read_decimal(text: &[u8]) -> Result<Decimal, DecimalFault>
    // What is read is spelled so.
    ensures found { IfOk result (λ d. IsDecimal d text.now) }
    // What is spelled so is read.
    ensures only { (d : Decimal) → IsDecimal d text.now → result ≡ Ok d }
    // Which fault it is.
    ensures exact { result ≡ read text.now }
{
    parse(text)
}
