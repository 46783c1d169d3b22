ghost use Rattle.std.specs.Prelude.{◌≡◌};
ghost use Rattle.sentence_fields.specs.Field.{IsCounted, IsPrintable};
ghost use Rattle.quantities.specs.Layout.{above_freezing, field_by, value_at};

use crate::unit::CELSIUS;
use crate::value::VALUES;
use sentence_fields::written_unit::WrittenUnit;
use sentence_fields::{Field, letter_where};

/// A field of a quantity's sentence. The quantity's values are counted from 0.
#[derive(Clone, Copy)]
pub(crate) enum Column {
    Empty,
    /// A letter of a unit or of a kind of transducer.
    Letter(u8),
    /// The name of a transducer.
    Word(&'static [u8]),
    /// A value in a unit, with its sign.
    Decimal(usize, WrittenUnit),
    /// A value as a course.
    Course(usize),
    /// A value in thousandths of a kelvin as degrees Celsius.
    Celsius(usize),
    /// `A` where a value is there, `V` where it isn't.
    Status(usize),
}

/// The value of this number.
fn value_at(values: &[Option<i64>; VALUES], at: usize) -> Option<i64>
    ensures { result ≡ value_at values.now at }
{
    match values.get(at) {
        Some(value) => *value,
        None => None,
    }
}

/// Thousandths of a degree Celsius.
fn above_freezing(kelvin: Option<i64>) -> Option<i64>
    requires { IsCounted CELSIUS (above_freezing kelvin) }
    ensures { result ≡ above_freezing kelvin }
{
    Some(kelvin? - 273_150)
}

impl Column {
    /// The field that says the values.
    pub(crate) fn field(&self, values: &[Option<i64>; VALUES]) -> Field
        requires { IsPrintable (field_by values.now self.now) }
        ensures { result ≡ field_by values.now self.now }
    {
        match *self {
            Column::Empty => Field::Empty,
            Column::Letter(letter) => Field::Letter(letter),
            Column::Word(word) => Field::Word(word),
            Column::Decimal(at, unit) => Field::Decimal(value_at(values, at), unit),
            Column::Course(at) => Field::Angle(value_at(values, at)),
            Column::Celsius(at) => Field::Decimal(above_freezing(value_at(values, at)), CELSIUS),
            Column::Status(at) => Field::Letter(letter_where(
                value_at(values, at).is_some(),
                b'A',
                b'V',
            )),
        }
    }
}
