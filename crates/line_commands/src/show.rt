//! `show`: what a line says, in plain numbers.
ghost use Rattle.std.specs.Prelude.{◌≡◌, ◌+◌, ◌≤◌, ◌*◌, [], ◌++◌, option_map};
ghost use Rattle.std.specs.List.{flat_map};
ghost use Rattle.arrayvec.specs.ArrayVec.{array_vec_len};
ghost use Rattle.n2k_id.specs.Frame.{IsFrame, bus_frame};
ghost use Rattle.sentence_text.specs.Names.{IsSfi};
ghost use Rattle.datagram450.specs.Datagram.{item_view, read as items_of};
ghost use Rattle.gate_events.specs.Event.{view, IsValid};
ghost use Rattle.gate_outside.specs.Faults.{HasCause};
ghost use Rattle.capture_text.specs.LineRule.{rule_number};
ghost use Rattle.line_commands.specs.Show as spec;
ghost use Rattle.capture_stream.specs.Writer.{Writes};

use crate::line_text::{LineText, append, append_number, append_part};
use arrayvec::ArrayVec;
use capture_stream::Writer;
use capture_text::LineRule;
use datagram450::{DatagramFault, LONGEST_DATAGRAM, LineItem, LineIter, lines};
use gate_events::Event;
use gate_outside::{Failed, Sink};
use n2k_id::{Frame, parts};
use report_rules::{DATAGRAM_HEADER, DATAGRAM_LONG};
use sentence_text::Sfi;
use tag_block::GroupPart;

#[tactic(auto, using(command_line::proofs::Numbers::digits_of_a_long))]
fn write_start(number: u64, text: &mut LineText)
    requires { text.old.items ≡ [] }
    ensures text { text.new.items ≡ spec.start number }
    ensures len { array_vec_len text.new ≤ 25 }
{
    append_part(b"line=", number, text);
}

fn write_tick(number: u64, text: &mut LineText)
    requires { text.old.items ≡ [] }
    ensures { text.new.items ≡ spec.tick_text number }
{
    write_start(number, text);
    append(b" tick\n", text);
}

#[tactic(auto, using(command_line::proofs::Numbers::digits_of_a_byte))]
fn append_rule(rule: u8, text: &mut LineText)
    requires { array_vec_len text.old ≤ 50 }
    ensures { text.new.items ≡ text.old.items ++ spec.rule_end rule }
{
    append_part(b" rule ", u64::from(rule), text);
    append(b"\n", text);
}

fn write_rule(number: u64, rule: u8, text: &mut LineText)
    requires { text.old.items ≡ [] }
    ensures { text.new.items ≡ spec.rule_text number rule }
{
    write_start(number, text);
    append_rule(rule, text);
}

#[tactic(auto, using(command_line::proofs::Numbers::digits_of_a_short))]
fn write_place(number: u64, at: u16, rule: u8, text: &mut LineText)
    requires { text.old.items ≡ [] }
    ensures { text.new.items ≡ spec.place_text number at rule }
{
    write_start(number, text);
    append_part(b" at=", u64::from(at), text);
    append_rule(rule, text);
}

// The parts of the identifier, and how many data bytes there are.
#[tactic(auto, using(command_line::proofs::Numbers::digits_of_a_byte, command_line::proofs::Numbers::digits_of_a_word))]
fn write_frame(number: u64, frame: &Frame, text: &mut LineText)
    requires empty { text.old.items ≡ [] }
    requires valid { IsFrame frame.now }
    ensures { text.new.items ≡ spec.frame_text number (bus_frame frame.now) }
{
    write_start(number, text);
    let parts = match parts(frame.id) {
        Some(parts) => parts,
        None => unreachable!(),
    };
    append_part(b" prio=", u64::from(parts.priority), text);
    append_part(b" pgn=", u64::from(parts.pgn), text);
    append_part(b" src=", u64::from(parts.source), text);
    append_part(b" dst=", u64::from(parts.destination), text);
    append_part(b" len=", u64::from(frame.len), text);
    append(b"\n", text);
}

#[tactic(auto, using(command_line::proofs::Numbers::digits_of_a_byte, command_line::proofs::Numbers::digits_of_a_short))]
fn append_group_part(number: u8, total: u8, code: u16, text: &mut LineText)
    requires { array_vec_len text.old ≤ 20 }
    ensures text { text.new.items ≡ text.old.items ++ spec.group_text number total code }
    ensures len { array_vec_len text.new ≤ array_vec_len text.old + 13 }
{
    append_number(u64::from(number), text);
    append_part(b"-", u64::from(total), text);
    append_part(b"-", u64::from(code), text);
}

fn append_group(group: &Option<GroupPart>, text: &mut LineText)
    requires { array_vec_len text.old ≤ 20 }
    ensures text { text.new.items ≡ text.old.items ++ spec.group_or_dash group.now }
    ensures len { array_vec_len text.new ≤ array_vec_len text.old + 13 }
{
    match group {
        None => append(b"-", text),
        Some(group) => append_group_part(group.number, group.total, group.code, text),
    }
}

#[tactic(auto, using(command_line::proofs::Numbers::digits_of_a_short))]
fn append_count(count: &Option<u16>, text: &mut LineText)
    requires { array_vec_len text.old ≤ 50 }
    ensures text { text.new.items ≡ text.old.items ++ spec.count_or_dash count.now }
    ensures len { array_vec_len text.new ≤ array_vec_len text.old + 5 }
{
    match count {
        None => append(b"-", text),
        Some(count) => append_number(u64::from(*count), text),
    }
}

// A line of a datagram up to its destination.
#[tactic(auto, using(command_line::proofs::Numbers::digits_of_a_short))]
fn write_front(number: u64, at: u16, source: &Sfi, text: &mut LineText)
    requires { text.old.items ≡ [] }
    ensures { text.new.items ≡ spec.front_text number at source.now }
{
    write_start(number, text);
    append_part(b" at=", u64::from(at), text);
    append(b" s=", text);
    append(source.as_bytes(), text);
    append(b" d=", text);
}

// What stands between the destination and the sentence.
fn write_middle(group: &Option<GroupPart>, count: &Option<u16>, text: &mut LineText)
    requires { text.old.items ≡ [] }
    ensures { text.new.items ≡ spec.middle_text group.now count.now }
{
    append(b" g=", text);
    append_group(group, text);
    append(b" n=", text);
    append_count(count, text);
    append(b" ", text);
}

// A sentence without its CR and LF.
fn without_end(sentence: &[u8]) -> &[u8]
    ensures { result.now ≡ spec.without_end sentence.now }
{
    sentence.split_at(sentence.len().saturating_sub(2)).0
}

fn text_or_dash<'a>(text: &Option<&'a [u8]>) -> &'a [u8]
    ensures { result.now ≡ spec.text_or_dash (option_map (λ t. t.now) text.now) }
{
    match text {
        Some(text) => text,
        None => b"-",
    }
}

// Sends the line of an item.
fn send_item<K: Sink>(
    number: u64,
    item: &LineItem<'_>,
    writer: &mut Writer,
    out: &mut K,
) -> Result<(), Failed>
    ensures sent { Writes (K.taken out.old) (K.taken out.new) (writer.old ++ spec.item_text number (item_view item.now)) writer.new result }
    ensures cause { HasCause (K.fault_count out.old) (K.fault_count out.new) result }
{
    match item {
        LineItem::Line { at, tag, text, .. } => {
            let mut front = ArrayVec::new();
            write_front(number, *at, &tag.source, &mut front);
            let mut middle = ArrayVec::new();
            write_middle(&tag.group, &tag.count, &mut middle);
            writer.send_all(
                &[
                    front.as_slice(),
                    text_or_dash(&tag.destination),
                    middle.as_slice(),
                    without_end(text),
                    b"\n",
                ],
                out,
            )
        }
        LineItem::Bad { rule, at } => {
            let mut text = ArrayVec::new();
            write_place(number, *at, *rule, &mut text);
            writer.send(text.as_slice(), out)
        }
    }
}

// Sends the lines of the items.
fn send_items<K: Sink>(
    number: u64,
    items: LineIter<'_>,
    writer: &mut Writer,
    out: &mut K,
) -> Result<(), Failed>
    ensures sent { Writes (K.taken out.old) (K.taken out.new) (writer.old ++ flat_map (spec.item_text number) items.entry) writer.new result }
    ensures cause { HasCause (K.fault_count out.old) (K.fault_count out.new) result }
{
    let mut items = items;
    'items: while let Some(item) = items.next() {
        match send_item(number, &item, writer, out) {
            Ok(()) => {}
            Err(Failed) => return Err(Failed),
        }
    }
    Ok(())
}

// Sends the report of a rule about a place in a datagram.
fn send_place<K: Sink>(
    number: u64,
    at: u16,
    rule: u8,
    writer: &mut Writer,
    out: &mut K,
) -> Result<(), Failed>
    ensures sent { Writes (K.taken out.old) (K.taken out.new) (writer.old ++ spec.place_text number at rule) writer.new result }
    ensures cause { HasCause (K.fault_count out.old) (K.fault_count out.new) result }
{
    let mut text = ArrayVec::new();
    write_place(number, at, rule, &mut text);
    writer.send(text.as_slice(), out)
}

// Sends what a datagram gives.
fn send_datagram<K: Sink>(
    number: u64,
    bytes: &[u8],
    writer: &mut Writer,
    out: &mut K,
) -> Result<(), Failed>
    ensures sent { Writes (K.taken out.old) (K.taken out.new) (writer.old ++ spec.items_text number (items_of bytes.now)) writer.new result }
    ensures cause { HasCause (K.fault_count out.old) (K.fault_count out.new) result }
{
    match lines(bytes) {
        Ok(items) => send_items(number, items, writer, out),
        Err(DatagramFault::Header(place)) => {
            send_place(number, place as u16, DATAGRAM_HEADER, writer, out)
        }
        Err(DatagramFault::Long) => send_place(
            number,
            LONGEST_DATAGRAM,
            DATAGRAM_LONG,
            writer,
            out,
        ),
    }
}

/// Sends the report of a rule about a line.
pub(crate) fn send_refusal<K: Sink>(
    rule: LineRule,
    number: u64,
    writer: &mut Writer,
    out: &mut K,
) -> Result<(), Failed>
    ensures sent { Writes (K.taken out.old) (K.taken out.new) (writer.old ++ spec.rule_text number (rule_number rule)) writer.new result }
    ensures cause { HasCause (K.fault_count out.old) (K.fault_count out.new) result }
{
    let mut text = ArrayVec::new();
    write_rule(number, rule.number(), &mut text);
    writer.send(text.as_slice(), out)
}

/// Sends what a line says.
#[inline(always)]
pub(crate) fn send_event<K: Sink>(
    number: u64,
    event: &Event<'_>,
    writer: &mut Writer,
    out: &mut K,
) -> Result<(), Failed>
    requires { IsValid event.now }
    ensures sent { Writes (K.taken out.old) (K.taken out.new) (writer.old ++ spec.seen_text number (view event.now)) writer.new result }
    ensures cause { HasCause (K.fault_count out.old) (K.fault_count out.new) result }
{
    match event {
        Event::Frame { frame, .. } => {
            // A frame of its own, so that the compiler needn't keep the moment that stands beside it.
            let frame = *frame;
            let mut text = ArrayVec::new();
            write_frame(number, &frame, &mut text);
            writer.send(text.as_slice(), out)
        }
        Event::Datagram { bytes, .. } => send_datagram(number, bytes, writer, out),
        Event::Tick { .. } => {
            let mut text = ArrayVec::new();
            write_tick(number, &mut text);
            writer.send(text.as_slice(), out)
        }
    }
}
