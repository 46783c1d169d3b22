//! ROT, rate of turn: `$TIROT,-10.0,A*27`.
//!
//! 1 rate in degrees per minute, to port negative, 2 the status: `A` valid, `V` not.

ghost use Rattle.std.specs.Prelude.{◌≡◌, [], ◌∷◌, ◌++◌, codes};
ghost use Rattle.sentence_fields.specs.Field.{IsCounted, texts_of, sentence_by};
ghost use Rattle.sentence_fields.specs.ReadBack.{IsReadBack};
ghost use Rattle.sentence_profile.specs.Writing as text;
ghost use Rattle.sentence_profile.specs.Columns.{fields_in};
ghost use Rattle.sentence_profile.specs.Reading as spec;
ghost use Rattle.sentence_rows.specs.Ready.{IsReady};

use crate::column::status;
use crate::letter::only_if;
use crate::number::number;
use readings::Reading;
use sentence_fields::Field::{Decimal, Letter};
use sentence_fields::written_unit::DEGREES_PER_MINUTE;
use sentence_fields::{Lines, append, letter_where};
use sentence_profile::{FieldFault, read_unit};
use sentence_text::Sentence;

pub(crate) fn rot(talker: [u8; 2], rate: Option<i64>, out: &mut Lines)
    requires ready { IsReady talker out.old.items }
    requires rate { IsCounted DEGREES_PER_MINUTE rate }
    ensures said { texts_of out.new ≡ texts_of out.old ++ sentence_by talker (codes "ROT") (text.rot rate) ∷ [] }
    ensures again { IsReadBack talker (codes "ROT") (text.rot rate) }
{
    let status = letter_where(rate.is_some(), b'A', b'V');
    append(
        talker,
        *b"ROT",
        &[Decimal(rate, DEGREES_PER_MINUTE), Letter(status)],
        out,
    );
}

/// The rate of turn that is read; a status of `V` makes it absent.
#[tactic(auto, unfolding(sentence_profile::specs::Reading::rot))]
pub(crate) fn read(sentence: &Sentence<'_>) -> Result<Reading, FieldFault>
    ensures { result ≡ spec.rot (fields_in sentence.now) }
{
    let rate = number(sentence, 1, read_unit::RATE_OF_TURN)?;
    let valid = status(sentence, 2, rate.is_none())?;
    Ok(Reading::RateOfTurn {
        rate: only_if(valid, rate),
    })
}
