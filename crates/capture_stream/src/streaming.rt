//! A capture in, the answers to its lines out.
ghost use Rattle.std.specs.Prelude.{◌≡◌, ◌+◌, ◌<◌, ◌^◌, length, Ok, Err};
ghost use Rattle.gate_outside.specs.Faults.{HasCause, Rose};
ghost use Rattle.capture_text.specs.Reading.{read as read_as};
ghost use Rattle.capture_stream.specs.Answering.{Sent, LineGives, NextGives};
ghost use Rattle.capture_stream.specs.LineReader.{IsNextRead};
ghost use Rattle.capture_stream.specs.Lines.{IsTextFrom};
ghost use Rattle.capture_stream.specs.Progress.{TakesLines, TakesLast, Ends, Steady};

use crate::answering::Answers;
use crate::ending::Ending;
use crate::line_reader::{LineReader, Next};
use crate::writer::Writer;
use capture_text::{LineRule, MOST_BYTES, Room, read_line};
use gate_events::Event;
use gate_outside::{Failed, Sink, Source};

/// How many bytes an input may have.
const LIMIT: u64 = 1 << 40;

// Sends what a line of any layout gives.
fn send_read<A: Answers, K: Sink>(
    answers: &mut A,
    number: u64,
    line: &[u8],
    room: &mut Room,
    writer: &mut Writer,
    out: &mut K,
) -> Result<(), Failed>
    ensures sent { Sent (A.gives answers.old number (read_as line.now)) (K.taken out.old) (K.taken out.new) writer.old writer.new answers.new result }
    ensures cause { HasCause (K.fault_count out.old) (K.fault_count out.new) result }
{
    match read_line(line, room) {
        Ok(event) => answers.answer_event(number, &event, writer, out),
        Err(rule) => answers.answer_refusal(number, rule, writer, out),
    }
}

// Sends what a line gives. An empty one gives nothing, and isn't read.
#[inline(never)]
fn send_unless_empty<A: Answers, K: Sink>(
    answers: &mut A,
    number: u64,
    line: &[u8],
    room: &mut Room,
    writer: &mut Writer,
    out: &mut K,
) -> Result<(), Failed>
    ensures sent { Sent (LineGives A.gives answers.old number line.now) (K.taken out.old) (K.taken out.new) writer.old writer.new answers.new result }
    ensures cause { HasCause (K.fault_count out.old) (K.fault_count out.new) result }
{
    if line.is_empty() {
        return Ok(());
    }
    send_read(answers, number, line, room, writer, out)
}

// Sends what the line gives that the reader took, if it took one.
//
// Lines of other layouts are kept apart from the way of nearly all, whose event then needn't go by way of memory.
#[inline(always)]
fn send_next<A: Answers, K: Sink>(
    answers: &mut A,
    next: Next,
    number: u64,
    reader: &LineReader,
    room: &mut Room,
    writer: &mut Writer,
    out: &mut K,
) -> Result<(), Failed>
    requires { IsNextRead next reader.now.line }
    ensures sent { Sent (NextGives A.gives answers.old next number reader.now.line) (K.taken out.old) (K.taken out.new) writer.old writer.new answers.new result }
    ensures cause { HasCause (K.fault_count out.old) (K.fault_count out.new) result }
{
    match next {
        Next::Usual { moment, frame } => {
            answers.answer_event(number, &Event::Frame { moment, frame }, writer, out)
        }
        Next::Line => send_unless_empty(answers, number, reader.line(), room, writer, out),
        Next::Long => answers.answer_refusal(number, LineRule::Long, writer, out),
        Next::Unfinished => Ok(()),
    }
}

// Sends the texts of all lines that have come whole, and answers how many lines there were so far.
fn answer_lines<A: Answers, K: Sink>(
    answers: &mut A,
    number: u64,
    reader: &mut LineReader,
    room: &mut Room,
    writer: &mut Writer,
    out: &mut K,
) -> Result<u64, Failed>
    requires { number + length reader.old.unread < 2 ^ 63 }
    ensures sent { TakesLines (LineGives A.gives) (K.taken out.old) (K.taken out.new) reader.old reader.new writer.old writer.new number answers.old answers.new result }
    ensures cause { HasCause (K.fault_count out.old) (K.fault_count out.new) result }
{
    let mut count = number;
    'lines: loop {
        let next = reader.advance();
        if let Next::Unfinished = next {
            return Ok(count);
        }
        count += 1;
        match send_next(answers, next, count, reader, room, writer, out) {
            Ok(()) => {}
            Err(Failed) => return Err(Failed),
        }
    }
}

// Sends the text of what follows the last LF, at the end of the input.
fn answer_last<A: Answers, K: Sink>(
    answers: &mut A,
    number: u64,
    reader: &mut LineReader,
    room: &mut Room,
    writer: &mut Writer,
    out: &mut K,
) -> Result<(), Failed>
    requires { number < 2 ^ 63 }
    ensures sent { TakesLast (LineGives A.gives) (K.taken out.old) (K.taken out.new) reader.old writer.old number answers.old result }
    ensures cause { HasCause (K.fault_count out.old) (K.fault_count out.new) result }
{
    let next = reader.finish();
    match send_next(answers, next, number + 1, reader, room, writer, out) {
        Ok(()) => writer.flush(out),
        Err(Failed) => Err(Failed),
    }
}

/// Goes over the input, line by line, until it ends or a call fails: of several that would end it, the first decides. Lines are counted
/// from 1.
///
/// What waits is written before each read, so that a reader at the other end of a pipe sees at once what there is to
/// see. Of an input that has more bytes than it may have, one byte more is read.
pub fn answer_capture<A: Answers, S: Source, K: Sink>(
    answers: &mut A,
    input: &mut S,
    out: &mut K,
) -> Ending
    ensures ends { Ends (IsTextFrom (LineGives A.gives) answers.old) (S.left input.old) (S.left input.new) (K.taken out.old) (K.taken out.new) result }
    ensures source { result ≡ Ending.SourceFailed → Rose (S.fault_count input.old) (S.fault_count input.new) }
    ensures sink { result ≡ Ending.SinkFailed → Rose (K.fault_count out.old) (K.fault_count out.new) }
    ensures steady { Steady (S.fault_count input.old) (S.fault_count input.new) (K.fault_count out.old) (K.fault_count out.new) result }
{
    let mut reader = LineReader::new();
    let mut writer = Writer::new();
    let mut room: Room = [0; MOST_BYTES];
    let mut number = 0;
    let mut total = 0;
    'pieces: loop {
        if let Err(Failed) = writer.flush(out) {
            return Ending::SinkFailed;
        }
        match reader.fill(LIMIT + 1 - total, input) {
            Err(Failed) => return Ending::SourceFailed,
            Ok(0) => {
                return match answer_last(
                    answers,
                    number,
                    &mut reader,
                    &mut room,
                    &mut writer,
                    out,
                ) {
                    Ok(()) => Ending::Done,
                    Err(Failed) => Ending::SinkFailed,
                };
            }
            Ok(count) => total += count as u64,
        }
        if total > LIMIT {
            return Ending::TooLong;
        }
        match answer_lines(answers, number, &mut reader, &mut room, &mut writer, out) {
            Err(Failed) => return Ending::SinkFailed,
            Ok(count) => number = count,
        }
    }
}
