//! VLW, distance through the water: `$VWVLW,1.00,N,0.50,N*48`.
//!
//! 1 and 2 the total distance in nautical miles, 3 and 4 the distance since reset.

ghost use Rattle.std.specs.Prelude.{◌≡◌, [], ◌∷◌, ◌++◌, codes};
ghost use Rattle.sentence_fields.specs.Field.{IsCounted, texts_of, sentence_by};
ghost use Rattle.sentence_fields.specs.ReadBack.{IsReadBack};
ghost use Rattle.sentence_profile.specs.Writing as text;
ghost use Rattle.sentence_profile.specs.Columns.{fields_in};
ghost use Rattle.sentence_profile.specs.Reading as spec;
ghost use Rattle.sentence_rows.specs.Ready.{IsReady};

use crate::number::measure;
use readings::Reading;
use sentence_fields::Field::{Decimal, Letter};
use sentence_fields::written_unit::NAUTICAL_MILES;
use sentence_fields::{Lines, append};
use sentence_profile::{FieldFault, read_unit};
use sentence_text::Sentence;

pub(crate) fn vlw(talker: [u8; 2], log: Option<i64>, trip: Option<i64>, out: &mut Lines)
    requires ready { IsReady talker out.old.items }
    requires log { IsCounted NAUTICAL_MILES log }
    requires trip { IsCounted NAUTICAL_MILES trip }
    ensures said { texts_of out.new ≡ texts_of out.old ++ sentence_by talker (codes "VLW") (text.vlw log trip) ∷ [] }
    ensures again { IsReadBack talker (codes "VLW") (text.vlw log trip) }
{
    append(
        talker,
        *b"VLW",
        &[
            Decimal(log, NAUTICAL_MILES),
            Letter(b'N'),
            Decimal(trip, NAUTICAL_MILES),
            Letter(b'N'),
        ],
        out,
    );
}

/// The distances through the water that are read.
#[tactic(auto, unfolding(sentence_profile::specs::Reading::vlw))]
pub(crate) fn read(sentence: &Sentence<'_>) -> Result<Reading, FieldFault>
    ensures { result ≡ spec.vlw (fields_in sentence.now) }
{
    let log = measure(sentence, 1, read_unit::NAUTICAL_MILES, b'N')?;
    let trip = measure(sentence, 3, read_unit::NAUTICAL_MILES, b'N')?;
    Ok(Reading::DistanceLog { log, trip })
}
