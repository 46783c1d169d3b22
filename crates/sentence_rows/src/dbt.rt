//! DBT, depth below the transducer: `$SDDBT,40.5,f,12.34,M,6.7,F*32`.
//!
//! 1 and 2 in feet, 3 and 4 in metres, 5 and 6 in fathoms.

ghost use Rattle.std.specs.Prelude.{◌≡◌, [], ◌∷◌, ◌++◌, codes};
ghost use Rattle.sentence_fields.specs.Field.{IsCounted, texts_of, sentence_by};
ghost use Rattle.sentence_fields.specs.ReadBack.{IsReadBack};
ghost use Rattle.sentence_profile.specs.Writing as text;
ghost use Rattle.sentence_profile.specs.Columns.{fields_in};
ghost use Rattle.sentence_profile.specs.Reading as spec;
ghost use Rattle.sentence_rows.specs.Ready.{IsReady};

use crate::column::unkept;
use crate::number::measure;
use readings::Reading;
use sentence_fields::Field::{Decimal, Letter};
use sentence_fields::written_unit::{FATHOMS, FEET, METRES};
use sentence_fields::{Lines, append};
use sentence_profile::{FieldFault, read_unit};
use sentence_text::Sentence;

pub(crate) fn dbt(talker: [u8; 2], depth: Option<i64>, out: &mut Lines)
    requires ready { IsReady talker out.old.items }
    requires feet { IsCounted FEET depth }
    requires metres { IsCounted METRES depth }
    requires fathoms { IsCounted FATHOMS depth }
    ensures said { texts_of out.new ≡ texts_of out.old ++ sentence_by talker (codes "DBT") (text.dbt depth) ∷ [] }
    ensures again { IsReadBack talker (codes "DBT") (text.dbt depth) }
{
    append(
        talker,
        *b"DBT",
        &[
            Decimal(depth, FEET),
            Letter(b'f'),
            Decimal(depth, METRES),
            Letter(b'M'),
            Decimal(depth, FATHOMS),
            Letter(b'F'),
        ],
        out,
    );
}

/// The depth that is read from its metres. Feet and fathoms are passed over.
#[tactic(auto, unfolding(sentence_profile::specs::Reading::dbt))]
pub(crate) fn read(sentence: &Sentence<'_>) -> Result<Reading, FieldFault>
    ensures { result ≡ spec.dbt (fields_in sentence.now) }
{
    unkept(sentence, 1)?;
    unkept(sentence, 2)?;
    let depth = measure(sentence, 3, read_unit::METRES, b'M')?;
    unkept(sentence, 5)?;
    unkept(sentence, 6)?;
    Ok(Reading::Depth {
        depth,
        offset: None,
        range: None,
    })
}
