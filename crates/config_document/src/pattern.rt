//! A choice of devices by the fields of their NAMEs, as a text: `class=40 industry=4`, or the 16 hexadecimal digits of one NAME.
ghost use Rattle.std.specs.Prelude.{◌≡◌, ◌==◌, ◌<◌, ◌≤◌, ◌^◌, IfSome, IsTrue, Some, length, option_map};
ghost use Rattle.std.specs.Option.{ForSome};
ghost use Rattle.std.specs.List.{list_all, position};
ghost use Rattle.sentence_text.specs.Byte.{is_digit};
ghost use Rattle.unit_fraction.specs.Digits.{number as number_of_digits};
ghost use Rattle.config_document.specs.Patterns.{IsStated, behind, ended, is_space, number_in, stated, stating_in, word, words_seen};

use crate::written::Written;
use n2k_id::{Name, Pattern};
use sentence_text::all_digits;

impl Written for Pattern {
    ghost use Rattle.config_document.specs.Patterns.{IsStated, pattern_in};

    ghost said_by = { pattern_in };

    ghost is_valid = { IsStated };

    #[tactic(auto, using(crate::proofs::Words::whole_is_stated))]
    fn of(text: &[u8]) -> Option<Pattern> {
        match <Name as Written>::of(text) {
            Some(name) => Some(Pattern::whole(name)),
            None => stating(text),
        }
    }
}

/// What is left of the words.
#[derive(Clone, Copy)]
enum Words<'a> {
    /// Those behind what was read.
    Left(&'a [u8]),
    /// None is left.
    Ended,
    /// A word was wrong.
    Wrong,
}

/// The pattern of the fields that are stated, in the order in which they stand in a NAME.
fn stating(text: &[u8]) -> Option<Pattern>
    ensures value { result ≡ stating_in text.now }
    ensures valid { IfSome result IsStated }
{
    let (unique, words) = stated(Words::Left(text), b"unique=", 21);
    let (manufacturer, words) = stated(words, b"manufacturer=", 11);
    let (instance_lower, words) = stated(words, b"instance_lower=", 3);
    let (instance_upper, words) = stated(words, b"instance_upper=", 5);
    let (function, words) = stated(words, b"function=", 8);
    let (reserved, words) = stated(words, b"reserved=", 1);
    let (class, words) = stated(words, b"class=", 7);
    let (system_instance, words) = stated(words, b"system_instance=", 4);
    let (industry, words) = stated(words, b"industry=", 3);
    let (arbitrary, words) = stated(words, b"arbitrary=", 1);
    let pattern = Pattern {
        unique,
        manufacturer: short(manufacturer),
        instance_lower: byte(instance_lower),
        instance_upper: byte(instance_upper),
        function: byte(function),
        reserved: byte(reserved),
        class: byte(class),
        system_instance: byte(system_instance),
        industry: byte(industry),
        arbitrary: flag(arbitrary),
    };
    ended(words, pattern)
}

/// The pattern, where no word is left and none was wrong.
fn ended(words: Words<'_>, pattern: Pattern) -> Option<Pattern>
    ensures value { result ≡ ended (words_seen words.entry) pattern }
    ensures only { IfSome result (λ p. p ≡ pattern) }
{
    match words {
        Words::Ended => Some(pattern),
        Words::Left(_) | Words::Wrong => None,
    }
}

/// What the first of the words states of a field of so many bits, and the words behind it; nothing, and all words, where it is about
/// another field.
#[tactic(auto, unfolding(crate::specs::Patterns::stated))]
fn stated<'a>(words: Words<'a>, field: &[u8], width: u32) -> (Option<u32>, Words<'a>)
    requires { width ≤ 21 }
    ensures number { result.0 ≡ (stated field.now width (words_seen words.entry)).0 }
    ensures behind { words_seen result.1 ≡ (stated field.now width (words_seen words.entry)).1 }
    ensures fits { ForSome result.0 (λ n. n < 2 ^ width) }
{
    match words {
        Words::Ended | Words::Wrong => (None, words),
        Words::Left(text) => {
            let (word, behind) = cut_word(text);
            match word.strip_prefix(field) {
                None => (None, words),
                Some(digits) => match number_of(digits, width) {
                    None => (None, Words::Wrong),
                    Some(number) => (Some(number), behind),
                },
            }
        }
    }
}

/// The first word, and the words behind it.
fn cut_word(text: &[u8]) -> (&[u8], Words<'_>)
    ensures word { result.0.now ≡ word text.now }
    ensures behind { words_seen result.1 ≡ Some (behind text.now) }
{
    match first_space(text) {
        None => (text, Words::Ended),
        Some(place) => (&text[..place], Words::Left(&text[place + 1..])),
    }
}

fn first_space(text: &[u8]) -> Option<usize>
    ensures { result ≡ position is_space text.now }
{
    text.iter().position(|byte| *byte == b' ')
}

/// The number that 1 to 7 digits write, if it has no more bits.
#[tactic(auto, unfolding(crate::specs::Patterns::number_in))]
fn number_of(digits: &[u8], width: u32) -> Option<u32>
    requires { width ≤ 21 }
    ensures value { result ≡ number_in width digits.now }
    ensures fits { ForSome result (λ n. n < 2 ^ width) }
{
    if digits.is_empty() || digits.len() > 7 || !all_digits(digits) {
        return None;
    }
    let number = number(digits);
    if number < 1 << width {
        Some(number)
    } else {
        None
    }
}

/// The number that digits write.
#[tactic(auto, using(crate::proofs::Numbers::step, crate::proofs::Numbers::fits, crate::proofs::Numbers::small, crate::proofs::Numbers::in_range))]
fn number(digits: &[u8]) -> u32
    requires digits { IsTrue (list_all is_digit digits.now) }
    requires few { length digits.now ≤ 7 }
    ensures { result ≡ number_of_digits digits.now }
{
    let mut number = 0;
    for digit in digits {
        number = number * 10 + u32::from(*digit - b'0');
    }
    number
}

fn short(stated: Option<u32>) -> Option<u16>
    requires { ForSome stated (λ n. n < 2 ^ 11) }
    ensures { result ≡ stated }
{
    match stated {
        None => None,
        Some(number) => Some(number as u16),
    }
}

fn byte(stated: Option<u32>) -> Option<u8>
    requires { ForSome stated (λ n. n < 2 ^ 8) }
    ensures { result ≡ stated }
{
    match stated {
        None => None,
        Some(number) => Some(number as u8),
    }
}

fn flag(stated: Option<u32>) -> Option<bool>
    ensures { result ≡ option_map (λ n. n == 1) stated }
{
    match stated {
        None => None,
        Some(number) => Some(number == 1),
    }
}
