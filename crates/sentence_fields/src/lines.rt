ghost use Rattle.std.specs.Prelude.{◌≡◌, ◌≤◌, ◌<◌, [], ◌∷◌, ◌++◌, ◌+◌, length, IsTrue};
ghost use Rattle.std.specs.List.{AllByRecursion, list_all};
ghost use Rattle.arrayvec.specs.ArrayVec.{array_vec_len};
ghost use Rattle.sentence_text.specs.Byte.{is_address_byte, is_capital};
ghost use Rattle.sentence_fields.specs.Field.{IsPrintable, body_text, body_width, most_sentences, texts_of, sentence_by};
ghost use Rattle.sentence_fields.specs.ReadBack.{IsReadBack};

use crate::field::Field;
use arrayvec::ArrayVec;
use sentence_text::{begin, end};

/// One sentence, from `$` to LF.
#[derive(Drop)]
pub struct SentenceText {
    pub bytes: ArrayVec<u8, 82>,
}

impl Default for SentenceText {
    ghost use Rattle.std.specs.Prelude.{◌≡◌, []};

    ghost is_default = { λ text. text.bytes.items ≡ [] };

    fn default() -> SentenceText {
        SentenceText {
            bytes: ArrayVec::new(),
        }
    }
}

/// The most sentences of one reading: a depth has DPT and DBT, and a true heading HDT and THS.
pub const MOST_SENTENCES: usize = 2;

/// The sentences of one reading.
pub type Lines = ArrayVec<SentenceText, MOST_SENTENCES>;

/// Appends the fields, each behind a comma.
fn append_fields(fields: &[Field], out: &mut ArrayVec<u8, 82>)
    requires printable { AllByRecursion IsPrintable fields.now }
    requires room { array_vec_len out.old + body_width fields.now ≤ 77 }
    ensures text { out.new.items ≡ out.old.items ++ body_text fields.now }
    ensures short { array_vec_len out.new ≤ 77 }
{
    for field in fields {
        out.push(b',');
        field.append(out);
    }
}

/// Leaves the sentence of the fields.
///
/// Each of its two callers has a copy of it, so that what is put together lies in the caller's frame and not behind a reference.
#[inline(always)]
pub fn write_sentence(
    talker: [u8; 2],
    formatter: [u8; 3],
    fields: &[Field],
    text: &mut SentenceText,
)
    requires empty { text.old.bytes.items ≡ [] }
    requires talker { IsTrue (list_all is_capital talker) }
    requires formatter { IsTrue (list_all is_address_byte formatter) }
    requires printable { AllByRecursion IsPrintable fields.now }
    requires short { body_width fields.now ≤ 71 }
    ensures text { text.new.bytes.items ≡ sentence_by talker formatter fields.now }
    ensures again { IsReadBack talker formatter fields.now }
{
    begin(talker, formatter, &mut text.bytes);
    append_fields(fields, &mut text.bytes);
    end(&mut text.bytes);
}

/// Adds the sentence of the fields.
pub fn append(talker: [u8; 2], formatter: [u8; 3], fields: &[Field], out: &mut Lines)
    requires room { length out.old.items < most_sentences }
    requires talker { IsTrue (list_all is_capital talker) }
    requires formatter { IsTrue (list_all is_address_byte formatter) }
    requires printable { AllByRecursion IsPrintable fields.now }
    requires short { body_width fields.now ≤ 71 }
    ensures said { texts_of out.new ≡ texts_of out.old ++ sentence_by talker formatter fields.now ∷ [] }
    ensures again { IsReadBack talker formatter fields.now }
{
    let mut text = SentenceText::default();
    write_sentence(talker, formatter, fields, &mut text);
    out.push(text);
}
