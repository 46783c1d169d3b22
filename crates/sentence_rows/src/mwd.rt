//! MWD, wind direction and speed: `$WIMWD,90.0,T,,M,9.99,N,5.14,M*44`.
//!
//! 1 and 2 direction in degrees true, 3 and 4 magnetic, 5 and 6 speed in knots, 7 and 8 in m/s.

ghost use Rattle.std.specs.Prelude.{◌≡◌, [], ◌∷◌, ◌++◌, codes};
ghost use Rattle.sentence_fields.specs.Field.{IsCounted, texts_of, sentence_by};
ghost use Rattle.sentence_fields.specs.ReadBack.{IsReadBack};
ghost use Rattle.sentence_profile.specs.Writing as text;
ghost use Rattle.sentence_profile.specs.Columns.{fields_in};
ghost use Rattle.sentence_profile.specs.Reading as spec;
ghost use Rattle.sentence_rows.specs.Ready.{IsReady};

use crate::column::is_magnetic;
use crate::letter::only_if;
use crate::number::either_unit;
use readings::Reading;
use sentence_fields::Field::{Angle, Decimal, Letter};
use sentence_fields::written_unit::{KNOTS, METRES_PER_SECOND};
use sentence_fields::{Lines, append};
use sentence_profile::{FieldFault, read_unit};
use sentence_text::Sentence;

pub(crate) fn mwd(
    talker: [u8; 2],
    magnetic: bool,
    speed: Option<i64>,
    angle: Option<i64>,
    out: &mut Lines,
)
    requires ready { IsReady talker out.old.items }
    requires knots { IsCounted KNOTS speed }
    requires metres { IsCounted METRES_PER_SECOND speed }
    ensures said { texts_of out.new ≡ texts_of out.old ++ sentence_by talker (codes "MWD") (text.mwd magnetic speed angle) ∷ [] }
    ensures again { IsReadBack talker (codes "MWD") (text.mwd magnetic speed angle) }
{
    let from_true = only_if(!magnetic, angle);
    let from_magnetic = only_if(magnetic, angle);
    append(
        talker,
        *b"MWD",
        &[
            Angle(from_true),
            Letter(b'T'),
            Angle(from_magnetic),
            Letter(b'M'),
            Decimal(speed, KNOTS),
            Letter(b'N'),
            Decimal(speed, METRES_PER_SECOND),
            Letter(b'M'),
        ],
        out,
    );
}

/// The wind that is read: its direction, true or else magnetic, and its speed in knots or else in m/s.
#[tactic(auto, unfolding(sentence_profile::specs::Reading::mwd))]
pub(crate) fn read(sentence: &Sentence<'_>) -> Result<Reading, FieldFault>
    ensures { result ≡ spec.mwd (fields_in sentence.now) }
{
    let angle = either_unit(sentence, 1, read_unit::ANGLE, b'T', read_unit::ANGLE, b'M')?;
    let speed = either_unit(
        sentence,
        5,
        read_unit::KNOTS,
        b'N',
        read_unit::METRES_PER_SECOND,
        b'M',
    )?;
    Ok(Reading::WindNorth {
        magnetic: is_magnetic(sentence),
        speed,
        angle,
    })
}
