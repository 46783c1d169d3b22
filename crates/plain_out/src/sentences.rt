//! The sentences of a datagram, without its header and TAG blocks.
ghost use Rattle.std.specs.Prelude.{◌≡◌, ◌+◌, ◌≤◌, [], ◌++◌, length};
ghost use Rattle.std.specs.List.{flat_map};
ghost use Rattle.arrayvec.specs.ArrayVec.{array_vec_len};
ghost use Rattle.tag_block.specs.Writing.{longest_packet};
ghost use Rattle.datagram450.specs.Datagram.{item_view};
ghost use Rattle.gate_outbox.specs.Output.{emits_of, no_emits};
ghost use Rattle.plain_out.specs.Pace.{said_all, uttered};
ghost use Rattle.plain_out.specs.Plain.{sentence_of, sentences_in};

use crate::stream::Stream;
use crate::voice::Voice;
use datagram450::{LineItem, LineIter, lines};
use gate_outbox::Emits;
use sentence_text::Group;
use tag_block::Packet;

/// The plain datagram, alone.
pub type PlainEmits = Emits<0>;

/// Leaves the sentences of the datagram that was emitted at this moment, where one was and the voice passes it on.
pub fn say_plain<const ROOM: usize>(
    voice: &mut Voice,
    moment: u64,
    stream: Option<Stream>,
    emits: &Emits<ROOM>,
    out: &mut PlainEmits,
)
    requires { out.old ≡ no_emits }
    ensures voice { voice.new ≡ (said_all voice.old moment (uttered stream (emits_of emits.now))).after }
    ensures plain { emits_of out.new ≡ (said_all voice.old moment (uttered stream (emits_of emits.now))).plain }
{
    if let Some(datagram) = emits.datagram() {
        let datagram = datagram.packet.as_slice();
        if voice.passes(moment, stream, datagram) {
            let plain = out.post(voice.group());
            push_sentences(datagram, &mut plain.packet);
        }
    }
}

/// Leaves the sentences of a datagram.
#[tactic(auto, using(crate::proofs::Lengths::said_short))]
pub fn push_sentences(datagram: &[u8], out: &mut Packet)
    requires few { length datagram.now ≤ longest_packet }
    requires empty { out.old.items ≡ [] }
    ensures sentences { out.new.items ≡ sentences_in datagram.now }
    ensures short { length (sentences_in datagram.now) ≤ length datagram.now }
{
    if let Ok(items) = lines(datagram) {
        push_all(items, out);
    }
}

/// Appends the sentence of each line.
fn push_all(items: LineIter<'_>, out: &mut Packet)
    requires { array_vec_len out.old + length (flat_map sentence_of items) ≤ longest_packet }
    ensures { out.new.items ≡ out.old.items ++ flat_map sentence_of items.entry }
{
    let mut items = items;
    while let Some(item) = items.next() {
        push_sentence(&item, out);
    }
}

/// Appends the sentence of a line.
fn push_sentence(item: &LineItem<'_>, out: &mut Packet)
    requires { array_vec_len out.old + length (sentence_of (item_view item.now)) ≤ longest_packet }
    ensures { out.new.items ≡ out.old.items ++ sentence_of (item_view item.now) }
{
    if let LineItem::Line { text, .. } = item {
        let _fits = out.try_extend_from_slice(text);
    }
}
