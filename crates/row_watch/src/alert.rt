//! ALR, the state of an alarm: `$IIALR,,101,A,V,heading_true*75`.
//!
//! 1 the time of the change, which is empty, 2 the number of the alarm, from 101 on in the order of the rows, 3 its condition, `A` while the
//! row isn't said and `V` once it is said again, 4 whether it is acknowledged, which is always `V`, not acknowledged, 5 the row's name. It is
//! written, and not read.
ghost use Rattle.std.specs.Prelude.{◌≡◌, [], IsTrue};
ghost use Rattle.std.specs.List.{list_all};
ghost use Rattle.sentence_text.specs.Byte.{is_capital};
ghost use Rattle.row_watch.specs.Alert.{alert_text};

use readings::Row;
use sentence_fields::Field::{Digits, Empty, Letter, Word};
use sentence_fields::{SentenceText, letter_where, write_sentence};

/// The number of the first row's alarm.
const FIRST_NUMBER: u64 = 101;

/// Says in one sentence of the talker whether the row is said. The text, empty before, then holds the sentence.
pub(crate) fn write_alert(talker: [u8; 2], row: Row, said: bool, out: &mut SentenceText)
    requires empty { out.old.bytes.items ≡ [] }
    requires talker { IsTrue (list_all is_capital talker) }
    ensures { out.new.bytes.items ≡ alert_text talker row said }
{
    let fields = [
        Empty,
        Digits(Some(FIRST_NUMBER + row.number() as u64), 3),
        Letter(letter_where(said, b'V', b'A')),
        Letter(b'V'),
        Word(row.name().as_bytes()),
    ];
    write_sentence(talker, *b"ALR", &fields, out);
}
