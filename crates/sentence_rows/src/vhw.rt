//! VHW, water speed and heading: `$VWVHW,,T,,M,9.99,N,18.50,K*61`.
//!
//! 1 to 4 the headings, which are not written, 5 and 6 the speed in knots, 7 and 8 in km/h.

ghost use Rattle.std.specs.Prelude.{◌≡◌, [], ◌∷◌, ◌++◌, codes};
ghost use Rattle.sentence_fields.specs.Field.{IsCounted, texts_of, sentence_by};
ghost use Rattle.sentence_fields.specs.ReadBack.{IsReadBack};
ghost use Rattle.sentence_profile.specs.Writing as text;
ghost use Rattle.sentence_profile.specs.Columns.{fields_in};
ghost use Rattle.sentence_profile.specs.Reading as spec;
ghost use Rattle.sentence_rows.specs.Ready.{IsReady};

use crate::column::unkept;
use crate::number::either_unit;
use readings::Reading;
use sentence_fields::Field::{Decimal, Empty, Letter};
use sentence_fields::written_unit::{KILOMETRES_PER_HOUR, KNOTS};
use sentence_fields::{Lines, append};
use sentence_profile::{FieldFault, read_unit};
use sentence_text::Sentence;

pub(crate) fn vhw(talker: [u8; 2], speed: Option<i64>, out: &mut Lines)
    requires ready { IsReady talker out.old.items }
    requires knots { IsCounted KNOTS speed }
    requires kilometres { IsCounted KILOMETRES_PER_HOUR speed }
    ensures said { texts_of out.new ≡ texts_of out.old ++ sentence_by talker (codes "VHW") (text.vhw speed) ∷ [] }
    ensures again { IsReadBack talker (codes "VHW") (text.vhw speed) }
{
    append(
        talker,
        *b"VHW",
        &[
            Empty,
            Letter(b'T'),
            Empty,
            Letter(b'M'),
            Decimal(speed, KNOTS),
            Letter(b'N'),
            Decimal(speed, KILOMETRES_PER_HOUR),
            Letter(b'K'),
        ],
        out,
    );
}

/// The speed through the water that is read, in knots or else in km/h. Headings are passed over.
#[tactic(auto, unfolding(sentence_profile::specs::Reading::vhw))]
pub(crate) fn read(sentence: &Sentence<'_>) -> Result<Reading, FieldFault>
    ensures { result ≡ spec.vhw (fields_in sentence.now) }
{
    unkept(sentence, 1)?;
    unkept(sentence, 2)?;
    unkept(sentence, 3)?;
    unkept(sentence, 4)?;
    let speed = either_unit(
        sentence,
        5,
        read_unit::KNOTS,
        b'N',
        read_unit::KILOMETRES_PER_HOUR,
        b'K',
    )?;
    Ok(Reading::WaterSpeed { speed })
}
