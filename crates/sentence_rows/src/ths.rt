//! THS, heading true with its status: `$HETHS,90.0,A*14`.
//!
//! 1 heading in degrees true, 2 the mode: `A` autonomous, `V` not valid.

ghost use Rattle.std.specs.Prelude.{◌≡◌, [], ◌∷◌, ◌++◌, codes};
ghost use Rattle.sentence_fields.specs.Field.{texts_of, sentence_by};
ghost use Rattle.sentence_fields.specs.ReadBack.{IsReadBack};
ghost use Rattle.sentence_profile.specs.Writing as text;
ghost use Rattle.sentence_profile.specs.Columns.{fields_in};
ghost use Rattle.sentence_profile.specs.Reading as spec;
ghost use Rattle.sentence_rows.specs.Ready.{IsReady};

use crate::column::heading_mode;
use crate::letter::only_if;
use crate::number::number;
use readings::Reading;
use sentence_fields::Field::{Angle, Letter};
use sentence_fields::{Lines, append, letter_where};
use sentence_profile::{FieldFault, read_unit};
use sentence_text::Sentence;

pub(crate) fn ths(talker: [u8; 2], heading: Option<i64>, out: &mut Lines)
    requires ready { IsReady talker out.old.items }
    ensures said { texts_of out.new ≡ texts_of out.old ++ sentence_by talker (codes "THS") (text.ths heading) ∷ [] }
    ensures again { IsReadBack talker (codes "THS") (text.ths heading) }
{
    let mode = letter_where(heading.is_some(), b'A', b'V');
    append(talker, *b"THS", &[Angle(heading), Letter(mode)], out);
}

/// The true heading that is read; a mode of `V` makes it absent.
#[tactic(auto, unfolding(sentence_profile::specs::Reading::ths))]
pub(crate) fn read(sentence: &Sentence<'_>) -> Result<Reading, FieldFault>
    ensures { result ≡ spec.ths (fields_in sentence.now) }
{
    let heading = number(sentence, 1, read_unit::ANGLE)?;
    let valid = heading_mode(sentence, 2)?;
    Ok(Reading::HeadingTrue {
        heading: only_if(valid, heading),
    })
}
