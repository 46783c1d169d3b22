//! What a satellite fix says of itself.

ghost use Rattle.std.specs.Prelude.{◌≡◌, ◌<◌, nat_le, unsigned_abs};
ghost use Rattle.readings.specs.Ranges.{method as method_range, satellites as satellites_range};
ghost use Rattle.sentence_profile.specs.Columns as spec;

use crate::column::is_blank;
use crate::digits::digits;
use readings::range::{METHOD, SATELLITES};
use sentence_profile::FieldFault;
use sentence_text::Sentence;

/// The method of a fix, 0 to 8; an empty field is 0.
#[tactic(auto, unfolding(sentence_profile::specs::Columns::quality))]
pub(crate) fn quality(sentence: &Sentence<'_>, at: u8) -> Result<u8, FieldFault>
    ensures { result ≡ spec.quality (spec.fields_in sentence.now) at }
{
    let method = digits(sentence, at, true, 1, 1)?;
    if is_method(method) {
        Ok(method as u8)
    } else {
        Err(FieldFault::Range(at))
    }
}

fn is_method(number: u64) -> bool
    requires { number < 10 }
    ensures { result ≡ nat_le number (unsigned_abs method_range.high) }
{
    METHOD.holds(number as i64)
}

/// The number of satellites.
#[tactic(auto, unfolding(sentence_profile::specs::Columns::satellites))]
pub(crate) fn satellites(sentence: &Sentence<'_>, at: u8) -> Result<Option<i64>, FieldFault>
    ensures { result ≡ spec.satellites (spec.fields_in sentence.now) at }
{
    let number = digits(sentence, at, true, 1, 3)?;
    if is_blank(sentence, at) {
        Ok(None)
    } else if are_satellites(number) {
        Ok(Some(number as i64))
    } else {
        Err(FieldFault::Range(at))
    }
}

fn are_satellites(number: u64) -> bool
    requires { number < 1000 }
    ensures { result ≡ nat_le number (unsigned_abs satellites_range.high) }
{
    SATELLITES.holds(number as i64)
}
