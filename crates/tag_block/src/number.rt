ghost use Rattle.std.specs.Prelude.{◌≡◌, ◌≤◌, IsTrue, length};
ghost use Rattle.std.specs.List.{list_all};
ghost use Rattle.sentence_text.specs.Byte.{is_digit};
ghost use Rattle.tag_block.specs.Reading.{number_in, group_in, is_from_1 as spec_from_1, has_group_form as has_form};
ghost use Rattle.tag_block.specs.Tag as spec;

use crate::group_part::GroupPart;
use sentence_text::{all_digits, byte_at};

/// The number of one digit or more, at most so many.
pub(crate) fn number(most: usize, text: &[u8]) -> Option<u16>
    requires { most ≤ 4 }
    ensures { result ≡ number_in most text.now }
{
    if text.is_empty() || text.len() > most || !all_digits(text) {
        return None;
    }
    Some(number_of(text))
}

/// The number that at most four digits write.
#[tactic(auto, using(crate::proofs::Numbers::step, crate::proofs::Numbers::in_range))]
fn number_of(digits: &[u8]) -> u16
    requires digits { IsTrue (list_all is_digit digits.now) }
    requires few { length digits.now ≤ 4 }
    ensures { result ≡ spec.number digits.now }
{
    let mut number = 0;
    for digit in digits {
        number = number * 10 + u16::from(*digit - b'0');
    }
    number
}

fn is_from_1(byte: u8) -> bool
    ensures { result ≡ spec_from_1 byte }
{
    matches!(byte, b'1'..=b'9')
}

fn has_group_form(text: &[u8]) -> bool
    ensures { result ≡ has_form text.now }
{
    is_from_1(byte_at(text, 0))
        && byte_at(text, 1) == b'-'
        && is_from_1(byte_at(text, 2))
        && byte_at(text, 3) == b'-'
        && byte_at(text, 0) <= byte_at(text, 2)
}

/// The group that a value says: the number, the total and the code, divided by `-`.
#[tactic(auto, unfolding(crate::specs::Reading::group_in))]
pub(crate) fn group(text: &[u8]) -> Option<GroupPart>
    ensures { result ≡ group_in text.now }
{
    if !has_group_form(text) {
        return None;
    }
    match number(4, text.split_at(4).1) {
        None | Some(0) => None,
        Some(code) => Some(GroupPart {
            number: byte_at(text, 0) - b'0',
            total: byte_at(text, 2) - b'0',
            code,
        }),
    }
}
