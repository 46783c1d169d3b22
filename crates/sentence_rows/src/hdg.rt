//! HDG, heading magnetic: `$HCHDG,90.0,1.0,W,2.0,E*6A`.
//!
//! 1 heading in degrees magnetic, 2 and 3 deviation and `E` or `W`, 4 and 5 variation and `E` or `W`.

ghost use Rattle.std.specs.Prelude.{◌≡◌, [], ◌∷◌, ◌++◌, codes};
ghost use Rattle.sentence_fields.specs.Field.{IsCounted, texts_of, sentence_by};
ghost use Rattle.sentence_fields.specs.ReadBack.{IsReadBack};
ghost use Rattle.sentence_profile.specs.Writing as text;
ghost use Rattle.sentence_profile.specs.Columns.{fields_in};
ghost use Rattle.sentence_profile.specs.Reading as spec;
ghost use Rattle.sentence_rows.specs.Ready.{IsReady};

use crate::number::{number, sided};
use readings::Reading;
use sentence_fields::Field::{Angle, Magnitude, Side};
use sentence_fields::written_unit::DEGREES;
use sentence_fields::{Lines, append};
use sentence_profile::{FieldFault, read_unit};
use sentence_text::Sentence;

pub(crate) fn hdg(
    talker: [u8; 2],
    heading: Option<i64>,
    deviation: Option<i64>,
    variation: Option<i64>,
    out: &mut Lines,
)
    requires ready { IsReady talker out.old.items }
    requires deviation { IsCounted DEGREES deviation }
    requires variation { IsCounted DEGREES variation }
    ensures said { texts_of out.new ≡ texts_of out.old ++ sentence_by talker (codes "HDG") (text.hdg heading deviation variation) ∷ [] }
    ensures again { IsReadBack talker (codes "HDG") (text.hdg heading deviation variation) }
{
    append(
        talker,
        *b"HDG",
        &[
            Angle(heading),
            Magnitude(deviation, DEGREES),
            Side(deviation, DEGREES, b'E', b'W'),
            Magnitude(variation, DEGREES),
            Side(variation, DEGREES, b'E', b'W'),
        ],
        out,
    );
}

/// The magnetic heading that is read.
#[tactic(auto, unfolding(sentence_profile::specs::Reading::hdg))]
pub(crate) fn read(sentence: &Sentence<'_>) -> Result<Reading, FieldFault>
    ensures { result ≡ spec.hdg (fields_in sentence.now) }
{
    let heading = number(sentence, 1, read_unit::ANGLE)?;
    let deviation = sided(sentence, 2, read_unit::DEVIATION, b'E', b'W')?;
    let variation = sided(sentence, 4, read_unit::DEVIATION, b'E', b'W')?;
    Ok(Reading::HeadingMagnetic {
        heading,
        deviation,
        variation,
    })
}
