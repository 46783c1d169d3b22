//! What is said of a value.
ghost use Rattle.std.specs.Prelude.{◌≡◌, ◌≤◌, [], IsTrue, length, map};
ghost use Rattle.std.specs.List.{AllByRecursion, list_all};
ghost use Rattle.sentence_text.specs.Byte.{is_capital};
ghost use Rattle.sentence_fields.specs.Field.{IsPrintable};
ghost use Rattle.quantities.specs.Layout.{field_by, layout_of};
ghost use Rattle.quantities.specs.Saying.{AreSaid, is_usable, sentence_of};
ghost use Rattle.quantities.specs.Told.{IsFrom, entries};

use crate::column::Column;
use crate::value::{VALUES, Value};
use arrayvec::ArrayVec;
use sentence_fields::{Field, SentenceText, write_sentence};

/// The most fields of a sentence.
const MOST_FIELDS: usize = 10;

/// Whether the value is usable: one of those that tell is there.
pub fn usable(value: &Value) -> bool
    ensures { result ≡ is_usable value.now }
{
    value
        .values
        .iter()
        .take(value.quantity.telling())
        .any(|value| value.is_some())
}

/// The fields that say the values.
fn fields_of(columns: &[Column], values: &[Option<i64>; VALUES]) -> ArrayVec<Field, MOST_FIELDS>
    requires few { length columns.now ≤ 10 }
    requires printable { AllByRecursion IsPrintable (map (field_by values.now) columns.now) }
    ensures { result.items ≡ map (field_by values.now) columns.now }
{
    let mut fields = ArrayVec::new();
    for column in columns {
        fields.push(column.field(values));
    }
    fields
}

/// Says the value in one sentence of the talker, on a boat with two engines or not. `out`, empty before, then holds it.
pub fn sentence(value: &Value, talker: [u8; 2], twin_engines: bool, out: &mut SentenceText)
    requires empty { out.old.bytes.items ≡ [] }
    requires range { IsFrom entries value.now }
    requires talker { IsTrue (list_all is_capital talker) }
    ensures said { out.new.bytes.items ≡ sentence_of twin_engines talker value.now }
    // It is a sentence of IEC 61162-1.
    ensures form { AreSaid (layout_of twin_engines value.now.quantity) talker value.now.values }
{
    let layout = value.quantity.layout(twin_engines);
    let fields = fields_of(layout.columns, &value.values);
    write_sentence(talker, layout.formatter, &fields, out);
}
