//! MWV, wind speed and angle: `$WIMWV,90.0,R,9.99,N,A*23`.
//!
//! 1 angle in degrees from the bow, 2 the reference: `R` relative, `T` theoretical, 3 and 4 speed in knots, 5 the
//! status: `A` valid, `V` not.

ghost use Rattle.std.specs.Prelude.{◌≡◌, [], ◌∷◌, ◌++◌, codes, IsTrue};
ghost use Rattle.sentence_text.specs.Byte.{is_field_byte};
ghost use Rattle.sentence_fields.specs.Field.{IsCounted, texts_of, sentence_by};
ghost use Rattle.sentence_fields.specs.ReadBack.{IsReadBack};
ghost use Rattle.sentence_profile.specs.Writing as text;
ghost use Rattle.sentence_profile.specs.Columns.{fields_in};
ghost use Rattle.sentence_profile.specs.Reading as spec;
ghost use Rattle.sentence_rows.specs.Ready.{IsReady};

use crate::column::{reference, status};
use crate::letter::only_if;
use crate::number::{number, wind_speed};
use readings::Reading;
use sentence_fields::Field::{Angle, Decimal, Letter};
use sentence_fields::written_unit::KNOTS;
use sentence_fields::{Lines, append, letter_where};
use sentence_profile::{FieldFault, read_unit};
use sentence_text::Sentence;

pub(crate) fn mwv(
    talker: [u8; 2],
    reference: u8,
    speed: Option<i64>,
    angle: Option<i64>,
    out: &mut Lines,
)
    requires ready { IsReady talker out.old.items }
    requires reference { IsTrue (is_field_byte reference) }
    requires speed { IsCounted KNOTS speed }
    ensures said { texts_of out.new ≡ texts_of out.old ++ sentence_by talker (codes "MWV") (text.mwv reference speed angle) ∷ [] }
    ensures again { IsReadBack talker (codes "MWV") (text.mwv reference speed angle) }
{
    let status = letter_where(angle.is_some() || speed.is_some(), b'A', b'V');
    append(
        talker,
        *b"MWV",
        &[
            Angle(angle),
            Letter(reference),
            Decimal(speed, KNOTS),
            Letter(b'N'),
            Letter(status),
        ],
        out,
    );
}

/// The wind that is read; a status of `V` makes it absent.
#[tactic(auto, unfolding(sentence_profile::specs::Reading::mwv))]
pub(crate) fn read(sentence: &Sentence<'_>) -> Result<Reading, FieldFault>
    ensures { result ≡ spec.mwv (fields_in sentence.now) }
{
    let angle = number(sentence, 1, read_unit::ANGLE)?;
    let is_true = reference(sentence, 2)?;
    let speed = wind_speed(sentence, 3)?;
    let nothing = angle.is_none() && speed.is_none();
    let valid = status(sentence, 5, nothing)?;
    Ok(wind(is_true, only_if(valid, speed), only_if(valid, angle)))
}

fn wind(is_true: bool, speed: Option<i64>, angle: Option<i64>) -> Reading
    ensures { result ≡ spec.wind is_true speed angle }
{
    if is_true {
        Reading::WindTrue { speed, angle }
    } else {
        Reading::WindApparent { speed, angle }
    }
}
