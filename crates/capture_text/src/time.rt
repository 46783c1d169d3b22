//! The time at the front of a line.
ghost use Rattle.std.specs.Prelude.{◌≡◌, ◌<◌, ◌≤◌, ◌^◌, ◌++◌, length, take, drop, true, Some, None, IfSome, MatchOption};
ghost use Rattle.std.specs.Char.{is_ascii_digit};
ghost use Rattle.std.specs.List.{list_all, prefix_len};
ghost use Rattle.unit_fraction.specs.Digits.{number_after};
ghost use Rattle.capture_text.specs.Reading as spec;

use sentence_text::byte_at;

/// How many bytes a time of ten digits of seconds has, with the space behind it.
const USUAL_TIME: usize = 20;

/// Whether all are decimal digits. All are tested, many at once, and none is a reason to stop.
fn all_decimal(text: &[u8]) -> bool
    ensures { result ≡ list_all is_ascii_digit text.now }
{
    let mut all = true;
    for byte in text {
        all = all & byte.is_ascii_digit();
    }
    all
}

/// The number that the digits write behind those that were read before.
#[tactic(auto, using(crate::proofs::Digits::digit_in_range, unit_fraction::proofs::Number::number_step))]
fn number(before: u64, digits: &[u8]) -> u64
    requires digits { list_all is_ascii_digit digits.now ≡ true }
    requires fits { number_after before digits.now < 2 ^ 64 }
    ensures { result ≡ number_after before digits.now }
{
    let mut number = before;
    for digit in digits {
        number = number * 10 + (u64::from(*digit) - u64::from(b'0'));
    }
    number
}

/// The digits of a time of twenty bytes, behind one another, so that one test has all of them.
fn usual_digits(line: &[u8]) -> [u8; 16]
    requires { 20 ≤ length line.now }
    ensures { result ≡ take 10 (drop 1 line.now) ++ take 6 (drop 12 line.now) }
{
    let mut digits = [0; 16];
    digits[..10].copy_from_slice(&line[1..11]);
    digits[10..].copy_from_slice(&line[12..18]);
    digits
}

/// Whether a time comes first whose seconds have ten digits, as all have from 2001 to 2286.
///
/// It is kept apart: behind a test of one of its bytes the compiler would take them one by one.
#[inline(never)]
pub(crate) fn has_usual_time(line: &[u8]) -> bool
    ensures { result ≡ true → spec.HasUsualTime line.now }
{
    if line.len() < USUAL_TIME
        || line[0] != b'('
        || line[11] != b'.'
        || line[18] != b')'
        || line[19] != b' '
    {
        return false;
    }
    all_decimal(&usual_digits(line))
}

/// The moment of such a time.
#[inline(always)]
pub(crate) fn usual_moment(line: &[u8]) -> u64
    requires { spec.HasUsualTime line.now }
    ensures { spec.time_at line.now ≡ Some (record { moment = result; rest = drop 20 line.now }) }
{
    number(number(0, &line[1..11]), &line[12..18])
}

/// The first bytes, at most so many.
#[tactic(auto, using(std::proofs::lemmas::List::take_all))]
fn front(text: &[u8], most: usize) -> &[u8]
    ensures { result.now ≡ take most text.now }
{
    if text.len() <= most {
        text
    } else {
        &text[..most]
    }
}

/// How many digits come first, of at most so many bytes.
fn digit_run(text: &[u8], most: usize) -> usize
    ensures { result ≡ prefix_len is_ascii_digit (take most text.now) }
{
    front(text, most)
        .iter()
        .take_while(|byte| byte.is_ascii_digit())
        .count()
}

/// The seconds at the front, and what follows the point behind them.
#[tactic(auto, unfolding(crate::specs::Reading::seconds_at))]
fn seconds(text: &[u8]) -> Option<(u64, &[u8])>
    ensures few { IfSome result (λ t. t.0 < 10 ^ 10) }
    ensures reads { MatchOption result (spec.seconds_at text.now ≡ None) (λ t. spec.seconds_at text.now ≡ Some (record { moment = t.0; rest = t.1.now })) }
{
    let count = digit_run(text, 10);
    if count < 1 || byte_at(text, count) != b'.' {
        return None;
    }
    Some((number(0, &text[..count]), &text[count + 1..]))
}

/// The moment whose seconds were read and whose microseconds are at the front, and what follows the space behind them.
#[tactic(auto, unfolding(crate::specs::Reading::micros_at))]
fn moment(seconds: u64, text: &[u8]) -> Option<(u64, &[u8])>
    requires { seconds < 10 ^ 10 }
    ensures reads { MatchOption result (spec.micros_at seconds text.now ≡ None)
        (λ t. spec.micros_at seconds text.now ≡ Some (record { moment = t.0; rest = t.1.now })) }
{
    if digit_run(text, 6) != 6 || byte_at(text, 6) != b')' || byte_at(text, 7) != b' ' {
        return None;
    }
    Some((number(seconds, &text[..6]), &text[8..]))
}

/// The moment of a time with any number of digits, and what follows the space behind it.
#[tactic(auto, unfolding(crate::specs::Reading::time_at))]
fn any_time(line: &[u8]) -> Option<(u64, &[u8])>
    ensures reads { MatchOption result (spec.time_at line.now ≡ None) (λ t. spec.time_at line.now ≡ Some (record { moment = t.0; rest = t.1.now })) }
{
    if byte_at(line, 0) != b'(' {
        return None;
    }
    let (seconds, rest) = seconds(&line[1..])?;
    moment(seconds, rest)
}

/// The moment of the time at the front, and what follows the space behind it.
pub(crate) fn time(line: &[u8]) -> Option<(u64, &[u8])>
    ensures reads { MatchOption result (spec.time_at line.now ≡ None) (λ t. spec.time_at line.now ≡ Some (record { moment = t.0; rest = t.1.now })) }
{
    if has_usual_time(line) {
        return Some((usual_moment(line), &line[USUAL_TIME..]));
    }
    any_time(line)
}
