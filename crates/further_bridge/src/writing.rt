//! The datagram of a value.
ghost use Rattle.std.specs.Prelude.{◌≡◌, [], IsTrue};
ghost use Rattle.std.specs.List.{list_all};
ghost use Rattle.sentence_text.specs.Byte.{is_capital};
ghost use Rattle.quantities.specs.Told.{IsFrom, entries};
ghost use Rattle.further_bridge.specs.FurtherOut.{value_datagram};

use datagram450::write_sentence;
use quantities::{Value, sentence};
use sentence_fields::SentenceText;
use sentence_text::Sfi;
use tag_block::Packet;

/// Writes the datagram of a value, on a boat with two engines or not. So many lines were said before.
#[tactic(auto, unfolding(crate::specs::FurtherOut::value_datagram))]
pub(crate) fn write_value(
    source: Sfi,
    talker: [u8; 2],
    twin_engines: bool,
    before: u16,
    value: &Value,
    packet: &mut Packet,
)
    requires range { IsFrom entries value.now }
    requires talker { IsTrue (list_all is_capital talker) }
    requires empty { packet.old.items ≡ [] }
    ensures { packet.new.items ≡ value_datagram twin_engines source talker before value.now }
{
    let mut line = SentenceText::default();
    sentence(value, talker, twin_engines, &mut line);
    write_sentence(source, before, &line.bytes, packet);
}
