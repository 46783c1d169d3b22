//! DPT, depth: `$SDDPT,12.34,-0.50,*67`.
//!
//! 1 depth below the transducer in metres, 2 the offset of the transducer in metres, 3 the range of the scale in
//! metres.

ghost use Rattle.std.specs.Prelude.{◌≡◌, [], ◌∷◌, ◌++◌, codes};
ghost use Rattle.sentence_fields.specs.Field.{IsCounted, texts_of, sentence_by};
ghost use Rattle.sentence_fields.specs.ReadBack.{IsReadBack};
ghost use Rattle.sentence_profile.specs.Writing as text;
ghost use Rattle.sentence_profile.specs.Columns.{fields_in};
ghost use Rattle.sentence_profile.specs.Reading as spec;
ghost use Rattle.sentence_rows.specs.Ready.{IsReady};

use crate::number::number;
use readings::Reading;
use sentence_fields::Field::Decimal;
use sentence_fields::written_unit::{METRES, OFFSET_METRES, RANGE_METRES};
use sentence_fields::{Lines, append};
use sentence_profile::{FieldFault, read_unit};
use sentence_text::Sentence;

pub(crate) fn dpt(
    talker: [u8; 2],
    depth: Option<i64>,
    offset: Option<i64>,
    range: Option<i64>,
    out: &mut Lines,
)
    requires ready { IsReady talker out.old.items }
    requires depth { IsCounted METRES depth }
    requires offset { IsCounted OFFSET_METRES offset }
    requires range { IsCounted RANGE_METRES range }
    ensures said { texts_of out.new ≡ texts_of out.old ++ sentence_by talker (codes "DPT") (text.dpt depth offset range) ∷ [] }
    ensures again { IsReadBack talker (codes "DPT") (text.dpt depth offset range) }
{
    append(
        talker,
        *b"DPT",
        &[
            Decimal(depth, METRES),
            Decimal(offset, OFFSET_METRES),
            Decimal(range, RANGE_METRES),
        ],
        out,
    );
}

/// The depth that is read. The range of the scale may be missing.
#[tactic(auto, unfolding(sentence_profile::specs::Reading::dpt))]
pub(crate) fn read(sentence: &Sentence<'_>) -> Result<Reading, FieldFault>
    ensures { result ≡ spec.dpt (fields_in sentence.now) }
{
    let depth = number(sentence, 1, read_unit::METRES)?;
    let offset = number(sentence, 2, read_unit::OFFSET_METRES)?;
    let range = scale_range(sentence)?;
    Ok(Reading::Depth {
        depth,
        offset,
        range,
    })
}

/// The range of the depth's scale, which may be missing.
#[tactic(auto, unfolding(sentence_profile::specs::Reading::depth_range))]
fn scale_range(sentence: &Sentence<'_>) -> Result<Option<i64>, FieldFault>
    ensures { result ≡ spec.depth_range (fields_in sentence.now) }
{
    if sentence.count() < 3 {
        Ok(None)
    } else {
        number(sentence, 3, read_unit::RANGE_METRES)
    }
}
