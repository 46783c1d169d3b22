//! The fields of a sentence that are made of digits alone, or have a fixed number of them before the point.

ghost use Rattle.std.specs.Prelude.{◌≡◌, ◌<◌, ◌≤◌, ◌^◌, drop, length, IfOk, IfSome, IsTrue, option_map};
ghost use Rattle.std.specs.Char.{is_ascii_digit};
ghost use Rattle.std.specs.List.{list_all};
ghost use Rattle.unit_fraction.specs.Digits.{number as number_of_digits};
ghost use Rattle.sentence_profile.specs.Columns as spec;

use crate::column::field;
use sentence_profile::{FieldFault, Fixed};
use sentence_text::{Sentence, all_digits};

fn are_digits(text: &[u8]) -> bool
    ensures { result ≡ list_all is_ascii_digit text.now }
{
    all_digits(text)
}

/// The number that at most twelve digits write.
#[tactic(auto, using(unit_fraction::proofs::Number::number_step, unit_fraction::proofs::Number::number_fits, sentence_profile::proofs::DigitNumbers::small, sentence_profile::proofs::DigitNumbers::in_range))]
fn number_of(digits: &[u8]) -> u64
    requires digits { IsTrue (list_all is_ascii_digit digits.now) }
    requires few { length digits.now ≤ 12 }
    ensures value { result ≡ number_of_digits digits.now }
    ensures small { result < 10 ^ length digits.now }
{
    let mut number = 0;
    for digit in digits {
        number = number * 10 + u64::from(*digit - b'0');
    }
    number
}

/// The digits behind a point, where there is one, at most so many.
fn part_behind(text: &[u8], most: u8) -> Option<&[u8]>
    ensures part { option_map (λ p. p.now) result ≡ spec.part_behind most text.now }
    ensures digits { IfSome result (λ p. IsTrue (list_all is_ascii_digit p.now)) }
    ensures few { IfSome result (λ p. length p.now ≤ most) }
{
    match text {
        [] => Some(text),
        [first, part @ ..] => {
            if *first == b'.' && part.len() <= usize::from(most) && are_digits(part) {
                Some(part)
            } else {
                None
            }
        }
    }
}

/// So many digits, and behind a point, where there is one, at most so many more.
#[tactic(auto, unfolding(sentence_profile::specs::Columns::fixed_in))]
pub(crate) fn fixed_in(text: &[u8], width: u8, most: u8) -> Option<Fixed>
    requires width { width ≤ 12 }
    requires most { most ≤ 12 }
    ensures exact { result ≡ spec.fixed_in width most text.now }
    ensures few { IfSome result (spec.IsFixed width most) }
{
    if text.len() < usize::from(width) {
        return None;
    }
    let (whole, rest) = text.split_at(usize::from(width));
    if !are_digits(whole) {
        return None;
    }
    let part = match part_behind(rest, most) {
        Some(part) => part,
        None => return None,
    };
    Some(Fixed {
        whole: number_of(whole),
        part: number_of(part),
        places: part.len() as u8,
    })
}

fn digits_in(text: &[u8], at: u8, may_lack: bool, least: u8, most: u8) -> Result<u64, FieldFault>
    requires { most ≤ 12 }
    ensures exact { result ≡ spec.digits_in at may_lack least most text.now }
    ensures small { IfOk result (λ n. n < 10 ^ most) }
{
    if text.is_empty() {
        return if may_lack {
            Ok(0)
        } else {
            Err(FieldFault::Form(at))
        };
    }
    let length = text.len();
    if usize::from(least) <= length && length <= usize::from(most) && are_digits(text) {
        Ok(number_of(text))
    } else {
        Err(FieldFault::Form(at))
    }
}

/// The number of at least and at most so many digits. Where the field may be empty, that is 0.
#[tactic(auto, unfolding(sentence_profile::specs::Columns::digits))]
pub(crate) fn digits(
    sentence: &Sentence<'_>,
    at: u8,
    may_lack: bool,
    least: u8,
    most: u8,
) -> Result<u64, FieldFault>
    requires { most ≤ 12 }
    ensures exact { result ≡ spec.digits (spec.fields_in sentence.now) at may_lack least most }
    ensures small { IfOk result (λ n. n < 10 ^ most) }
{
    match field(sentence, at) {
        Some(text) => digits_in(text, at, may_lack, least, most),
        None => Err(FieldFault::Form(at)),
    }
}
