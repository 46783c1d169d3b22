//! The fields of a sentence by their numbers, counted from 1, and those that are letters.

ghost use Rattle.std.specs.Prelude.{◌≡◌, option_map};
ghost use Rattle.sentence_profile.specs.Columns.{fault};
ghost use Rattle.sentence_profile.specs.Columns as spec;
ghost use Rattle.sentence_profile.specs.Reading.{is_invalid_mode};

use sentence_profile::FieldFault;
use sentence_text::Sentence;

/// The text of a field; None where it is missing.
#[tactic(auto, using(sentence_profile::proofs::Columns::field_by_number))]
pub(crate) fn field<'a>(sentence: &Sentence<'a>, at: u8) -> Option<&'a [u8]>
    ensures { option_map (λ f. f.now) result ≡ spec.field_at (spec.fields_in sentence.now) at }
{
    sentence.field(usize::from(at))
}

/// Whether there is no such field, or no byte in it.
#[tactic(auto, unfolding(sentence_profile::specs::Columns::is_blank, sentence_profile::specs::Columns::text))]
pub(crate) fn is_blank(sentence: &Sentence<'_>, at: u8) -> bool
    ensures { result ≡ spec.is_blank (spec.fields_in sentence.now) at }
{
    match field(sentence, at) {
        Some([_, ..]) => false,
        Some([]) | None => true,
    }
}

/// Whether of a true direction in the first field and a magnetic one in the third only the magnetic one is there.
#[tactic(auto, unfolding(sentence_profile::specs::Columns::is_magnetic))]
pub(crate) fn is_magnetic(sentence: &Sentence<'_>) -> bool
    ensures { result ≡ spec.is_magnetic (spec.fields_in sentence.now) }
{
    is_blank(sentence, 1) && !is_blank(sentence, 3)
}

/// A field that isn't kept has only to be there.
#[tactic(auto, unfolding(sentence_profile::specs::Columns::unkept))]
pub(crate) fn unkept(sentence: &Sentence<'_>, at: u8) -> Result<(), FieldFault>
    ensures { fault result ≡ spec.unkept (spec.fields_in sentence.now) at }
{
    if sentence.count() < usize::from(at) {
        Err(FieldFault::Form(at))
    } else {
        Ok(())
    }
}

/// Whether the text is the letter, or nothing where it may be left out.
pub(crate) fn is_letter(text: &[u8], letter: u8, may_lack: bool) -> bool
    ensures { result ≡ spec.is_letter letter may_lack text.now }
{
    match text {
        [] => may_lack,
        [only] => *only == letter,
        _ => false,
    }
}

/// The letter of a unit, which may be left out beside an empty value.
#[tactic(auto, unfolding(sentence_profile::specs::Columns::unit_letter))]
pub(crate) fn unit_letter(
    sentence: &Sentence<'_>,
    at: u8,
    letter: u8,
    beside_nothing: bool,
) -> Result<(), FieldFault>
    ensures { fault result ≡ spec.unit_letter (spec.fields_in sentence.now) at letter beside_nothing }
{
    let text = match field(sentence, at) {
        Some(text) => text,
        None => return Err(FieldFault::Form(at)),
    };
    if is_letter(text, letter, beside_nothing) {
        Ok(())
    } else {
        Err(FieldFault::Form(at))
    }
}

/// Whether the text is the first of two letters.
fn which(text: &[u8], at: u8, first: u8, second: u8, may_lack: bool) -> Result<bool, FieldFault>
    ensures { result ≡ spec.which at first second may_lack text.now }
{
    if is_letter(text, first, false) {
        Ok(true)
    } else if is_letter(text, second, may_lack) {
        Ok(false)
    } else {
        Err(FieldFault::Form(at))
    }
}

/// Whether a status is `A`, valid, and not `V`; nothing counts as `V` beside empty values.
#[tactic(auto, unfolding(sentence_profile::specs::Columns::status))]
pub(crate) fn status(
    sentence: &Sentence<'_>,
    at: u8,
    beside_nothing: bool,
) -> Result<bool, FieldFault>
    ensures { result ≡ spec.status (spec.fields_in sentence.now) at beside_nothing }
{
    match field(sentence, at) {
        Some(text) => which(text, at, b'A', b'V', beside_nothing),
        None => Err(FieldFault::Form(at)),
    }
}

/// Whether a wind is `T`, the true one, and not `R`, the apparent one.
#[tactic(auto, unfolding(sentence_profile::specs::Columns::reference))]
pub(crate) fn reference(sentence: &Sentence<'_>, at: u8) -> Result<bool, FieldFault>
    ensures { result ≡ spec.reference (spec.fields_in sentence.now) at }
{
    match field(sentence, at) {
        Some(text) => which(text, at, b'T', b'R', false),
        None => Err(FieldFault::Form(at)),
    }
}

/// Whether the letter that stands for a value's sign is the negative one. Beside an empty value it is ignored.
#[tactic(auto, unfolding(sentence_profile::specs::Columns::side))]
pub(crate) fn side(
    sentence: &Sentence<'_>,
    at: u8,
    positive: u8,
    negative: u8,
    beside_nothing: bool,
) -> Result<bool, FieldFault>
    ensures { result ≡ spec.side (spec.fields_in sentence.now) at positive negative beside_nothing }
{
    let text = match field(sentence, at) {
        Some(text) => text,
        None => return Err(FieldFault::Form(at)),
    };
    if beside_nothing {
        return Ok(false);
    }
    which(text, at, negative, positive, false)
}

/// Whether a heading is valid: any capital letter but `V`.
#[tactic(auto, unfolding(sentence_profile::specs::Columns::heading_mode))]
pub(crate) fn heading_mode(sentence: &Sentence<'_>, at: u8) -> Result<bool, FieldFault>
    ensures { result ≡ spec.heading_mode (spec.fields_in sentence.now) at }
{
    match field(sentence, at) {
        Some([letter @ b'A'..=b'Z']) => Ok(*letter != b'V'),
        _ => Err(FieldFault::Form(at)),
    }
}

/// Whether a mode, which may be missing, is `N`.
#[tactic(auto, unfolding(sentence_profile::specs::Reading::is_invalid_mode, sentence_profile::specs::Columns::text))]
pub(crate) fn is_invalid_mode(sentence: &Sentence<'_>, at: u8) -> bool
    ensures { result ≡ is_invalid_mode (spec.fields_in sentence.now) at }
{
    match field(sentence, at) {
        Some(mode) => is_letter(mode, b'N', false),
        None => false,
    }
}
