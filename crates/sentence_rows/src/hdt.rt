//! HDT, heading true: `$HEHDT,90.0,T*16`.
//!
//! 1 heading in degrees true, 2 `T`.

ghost use Rattle.std.specs.Prelude.{◌≡◌, [], ◌∷◌, ◌++◌, codes};
ghost use Rattle.sentence_fields.specs.Field.{texts_of, sentence_by};
ghost use Rattle.sentence_fields.specs.ReadBack.{IsReadBack};
ghost use Rattle.sentence_profile.specs.Writing as text;
ghost use Rattle.sentence_profile.specs.Columns.{fields_in};
ghost use Rattle.sentence_profile.specs.Reading as spec;
ghost use Rattle.sentence_rows.specs.Ready.{IsReady};

use crate::number::measure;
use readings::Reading;
use sentence_fields::Field::{Angle, Letter};
use sentence_fields::{Lines, append};
use sentence_profile::{FieldFault, read_unit};
use sentence_text::Sentence;

pub(crate) fn hdt(talker: [u8; 2], heading: Option<i64>, out: &mut Lines)
    requires ready { IsReady talker out.old.items }
    ensures said { texts_of out.new ≡ texts_of out.old ++ sentence_by talker (codes "HDT") (text.hdt heading) ∷ [] }
    ensures again { IsReadBack talker (codes "HDT") (text.hdt heading) }
{
    append(talker, *b"HDT", &[Angle(heading), Letter(b'T')], out);
}

/// The true heading that is read.
#[tactic(auto, unfolding(sentence_profile::specs::Reading::hdt))]
pub(crate) fn read(sentence: &Sentence<'_>) -> Result<Reading, FieldFault>
    ensures { result ≡ spec.hdt (fields_in sentence.now) }
{
    let heading = measure(sentence, 1, read_unit::ANGLE, b'T')?;
    Ok(Reading::HeadingTrue { heading })
}
