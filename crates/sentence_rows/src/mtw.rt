//! MTW, water temperature: `$YXMTW,-0.1,C*0E`.
//!
//! 1 and 2 the temperature in degrees Celsius.

ghost use Rattle.std.specs.Prelude.{◌≡◌, [], ◌∷◌, ◌++◌, codes};
ghost use Rattle.readings.specs.Ranges.{Admits, water_temperature as temperature_range};
ghost use Rattle.sentence_fields.specs.Field.{IsCounted, texts_of, sentence_by};
ghost use Rattle.sentence_fields.specs.ReadBack.{IsReadBack};
ghost use Rattle.sentence_profile.specs.Writing as text;
ghost use Rattle.sentence_profile.specs.Columns.{IsSmall, fields_in};
ghost use Rattle.sentence_profile.specs.Reading as spec;
ghost use Rattle.sentence_rows.specs.Ready.{IsReady};

use crate::number::measure;
use readings::Reading;
use sentence_fields::Field::{Decimal, Letter};
use sentence_fields::written_unit::CELSIUS;
use sentence_fields::{Lines, append};
use sentence_profile::{FieldFault, read_unit};
use sentence_text::Sentence;

pub(crate) fn mtw(talker: [u8; 2], kelvin: Option<i64>, out: &mut Lines)
    requires ready { IsReady talker out.old.items }
    requires kelvin { IsCounted CELSIUS (text.above_freezing kelvin) }
    requires range { Admits temperature_range kelvin }
    ensures said { texts_of out.new ≡ texts_of out.old ++ sentence_by talker (codes "MTW") (text.mtw kelvin) ∷ [] }
    ensures again { IsReadBack talker (codes "MTW") (text.mtw kelvin) }
{
    let celsius = match kelvin {
        Some(kelvin) => Some(kelvin - 273_150),
        None => None,
    };
    append(
        talker,
        *b"MTW",
        &[Decimal(celsius, CELSIUS), Letter(b'C')],
        out,
    );
}

/// The temperature that is read.
#[tactic(auto, unfolding(sentence_profile::specs::Reading::mtw))]
pub(crate) fn read(sentence: &Sentence<'_>) -> Result<Reading, FieldFault>
    ensures { result ≡ spec.mtw (fields_in sentence.now) }
{
    let celsius = measure(sentence, 1, read_unit::CELSIUS, b'C')?;
    Ok(Reading::WaterTemperature {
        kelvin: from_freezing(celsius),
    })
}

/// Thousandths of a kelvin.
fn from_freezing(celsius: Option<i64>) -> Option<i64>
    requires { IsSmall celsius }
    ensures { result ≡ spec.from_freezing celsius }
{
    Some(celsius? + 273_150)
}
