//! `convert`: the sentences of a line's frame, or the report of the line.
ghost use Rattle.std.specs.Prelude.{◌≡◌, ◌++◌, false, List, ℕ, Ok};
ghost use Rattle.std.specs.List.{flat_map};
ghost use Rattle.n2k_id.specs.Frame.{IsFrame};
ghost use Rattle.n2k_id.specs.Identifier.{parts_of};
ghost use Rattle.readings.specs.Rows.{IsValid as IsValidReading, row_of, about_of};
ghost use Rattle.pgn_profile.specs.Profiled.{kind_of, GivesValid};
ghost use Rattle.sentence_fields.specs.Field.{texts_of};
ghost use Rattle.sentence_profile.specs.Writing.{IsText};
ghost use Rattle.gate_events.specs.Event.{view, IsValid};
ghost use Rattle.gate_outside.specs.Faults.{HasCause};
ghost use Rattle.capture_text.specs.LineRule.{rule_number};
ghost use Rattle.line_commands.specs.Convert.{refusal, IsPayloadText, IsMessageText, IsSaidText};
ghost use Rattle.capture_stream.specs.Writer.{SendsText, Writes};

use crate::line_text::{LineText, append, append_part};
use arrayvec::ArrayVec;
use capture_stream::Writer;
use capture_text::LineRule;
use gate_events::Event;
use gate_outside::{Failed, Sink};
use n2k_id::{Frame, parts};
use pgn_profile::{Kind, Profiled, kind, read_in_place};
use readings::{Reading, row};
use report_rules::{NOT_CONVERTED, SHORT_MESSAGE};
use sentence_fields::Lines;
use sentence_rows::sentences;

// The report of a rule about a line.
#[tactic(auto, using(command_line::proofs::Numbers::digits_of_a_byte, command_line::proofs::Numbers::digits_of_a_long), unfolding(crate::specs::Convert::refusal))]
fn refusal_of(rule: u8, number: u64) -> LineText
    ensures { result.items ≡ refusal rule number }
{
    let mut text = ArrayVec::new();
    append_part(b"rule ", u64::from(rule), &mut text);
    append_part(b" line=", number, &mut text);
    append(b"\n", &mut text);
    text
}

// Sends the report of a rule about a line.
fn send_report<K: Sink>(
    rule: u8,
    number: u64,
    writer: &mut Writer,
    out: &mut K,
) -> Result<(), Failed>
    ensures sent { SendsText (λ text. text ≡ refusal rule number) (K.taken out.old) (K.taken out.new) writer.old writer.new result }
    ensures cause { HasCause (K.fault_count out.old) (K.fault_count out.new) result }
{
    let text = refusal_of(rule, number);
    writer.send(text.as_slice(), out)
}

// Sends the sentences behind one another. A reading has one or two.
fn send_lines<K: Sink>(lines: &Lines, writer: &mut Writer, out: &mut K) -> Result<(), Failed>
    ensures sent { Writes (K.taken out.old) (K.taken out.new) (writer.old ++ flat_map (λ line. line) (texts_of lines.now)) writer.new result }
    ensures cause { HasCause (K.fault_count out.old) (K.fault_count out.new) result }
{
    match lines.as_slice() {
        [] => Ok(()),
        [first] => writer.send(first.bytes.as_slice(), out),
        [first, second, ..] => {
            writer.send_all(&[first.bytes.as_slice(), second.bytes.as_slice()], out)
        }
    }
}

// Sends the sentences of a reading.
fn send_reading<K: Sink>(reading: &Reading, writer: &mut Writer, out: &mut K) -> Result<(), Failed>
    requires { IsValidReading reading.now }
    ensures sent { SendsText (λ text. (lines : List (List ℕ)) × IsText reading.now (about_of (row_of reading.now)).talker false lines
        × (text ≡ flat_map (λ line. line) lines)) (K.taken out.old) (K.taken out.new) writer.old writer.new result }
    ensures cause { HasCause (K.fault_count out.old) (K.fault_count out.new) result }
{
    let mut lines = ArrayVec::new();
    sentences(reading, row(reading).talker(), false, &mut lines);
    send_lines(&lines, writer, out)
}

fn send_payload<K: Sink>(
    number: u64,
    profiled: &Profiled,
    writer: &mut Writer,
    out: &mut K,
) -> Result<(), Failed>
    requires { GivesValid profiled.now }
    ensures sent { SendsText (IsPayloadText number profiled.now) (K.taken out.old) (K.taken out.new) writer.old writer.new result }
    ensures cause { HasCause (K.fault_count out.old) (K.fault_count out.new) result }
{
    match profiled {
        Profiled::Reading(reading) => send_reading(reading, writer, out),
        Profiled::Outside => send_report(NOT_CONVERTED, number, writer, out),
        Profiled::Short => send_report(SHORT_MESSAGE, number, writer, out),
    }
}

// Sends what a message gives that came in one frame.
#[inline(always)]
fn send_message<K: Sink>(
    number: u64,
    pgn: u32,
    payload: &[u8],
    writer: &mut Writer,
    out: &mut K,
) -> Result<(), Failed>
    ensures sent { SendsText (IsMessageText number (kind_of pgn) pgn payload.now) (K.taken out.old) (K.taken out.new) writer.old writer.new result }
    ensures cause { HasCause (K.fault_count out.old) (K.fault_count out.new) result }
{
    match kind(pgn) {
        Kind::Single => send_payload(number, &read_in_place(pgn, payload), writer, out),
        Kind::Fast | Kind::Outside => send_report(NOT_CONVERTED, number, writer, out),
    }
}

fn pgn_of(frame: &Frame) -> u32
    requires { IsFrame frame.now }
    ensures { result ≡ (parts_of frame.now.id).pgn }
{
    match parts(frame.id) {
        Some(parts) => parts.pgn,
        None => unreachable!(),
    }
}

/// Sends what a line gives that says something.
#[inline(always)]
pub(crate) fn send_event<K: Sink>(
    number: u64,
    event: &Event<'_>,
    writer: &mut Writer,
    out: &mut K,
) -> Result<(), Failed>
    requires { IsValid event.now }
    ensures sent { SendsText (IsSaidText number (Ok (view event.now))) (K.taken out.old) (K.taken out.new) writer.old writer.new result }
    ensures cause { HasCause (K.fault_count out.old) (K.fault_count out.new) result }
{
    match event {
        Event::Frame { frame, .. } => {
            // A frame of its own: a call that had a part of the event by reference would have the compiler keep its moment too.
            let frame = *frame;
            send_message(number, pgn_of(&frame), frame.held(), writer, out)
        }
        Event::Datagram { .. } | Event::Tick { .. } => {
            send_report(NOT_CONVERTED, number, writer, out)
        }
    }
}

/// Sends the report of a rule about a line.
pub(crate) fn send_refusal<K: Sink>(
    rule: LineRule,
    number: u64,
    writer: &mut Writer,
    out: &mut K,
) -> Result<(), Failed>
    ensures sent { Writes (K.taken out.old) (K.taken out.new) (writer.old ++ refusal (rule_number rule) number) writer.new result }
    ensures cause { HasCause (K.fault_count out.old) (K.fault_count out.new) result }
{
    let text = refusal_of(rule.number(), number);
    writer.send(text.as_slice(), out)
}
