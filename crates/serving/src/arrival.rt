//! What came over a link, when it was asked once.
ghost use Rattle.std.specs.Prelude.{◌≡◌, ◌≤◌, ◌∷◌, ℕ, length, take, option_map, IfOk, IfSome};
ghost use Rattle.hex.specs.Hex.{IsBytes};
ghost use Rattle.std.specs.Io.BufRead.{ends_with_byte, strip_last};
ghost use Rattle.n2k_id.specs.Frame.{IsFrame};
ghost use Rattle.capture_text.specs.Reading.{read};
ghost use Rattle.gate_outside.specs.Link.{GoesOn, Outcome, received_also};
ghost use Rattle.serving.specs.Handing.{frame_came, frame_said};
ghost use Rattle.serving.specs.Turns.{from_bus, refused, line_says, text_of};

use capture_text::{MOST_BYTES, read_line};
use gate_events::{Detail, Event, Report};
use gate_outside::{Arrival, Failed, LARGEST_ARRIVAL, Link};
use n2k_id::Frame;
use report_rules::{CAPTURE_FORM, RECEIVE_FAILED};

/// Receives once on the bus: a frame or nothing, or what is reported in its place.
pub(crate) fn receive_frame<B: Link>(number: u64, bus: &mut B) -> Result<Option<Frame>, Report>
    ensures came { (outcome : Outcome) × GoesOn (received_also outcome) (B.traffic bus.old) (B.traffic bus.new)
        × ((m : ℕ) → frame_came m result ≡ from_bus m number outcome) }
    ensures valid { IfOk result (λ frame. IfSome frame IsFrame) }
{
    let mut buffer = [0; LARGEST_ARRIVAL];
    match bus.receive(&mut buffer) {
        Ok(Arrival::Bytes(count)) => match frame_in(number, text_of(&buffer[..count])) {
            Ok(frame) => Ok(Some(frame)),
            Err(report) => Err(report),
        },
        Ok(Arrival::Nothing) => Ok(None),
        Err(Failed) => Err(Report {
            rule: RECEIVE_FAILED,
            detail: Detail::Bus,
        }),
    }
}

/// What came over the network: so many bytes at the front of a buffer.
pub(crate) fn front(buffer: &[u8], count: usize) -> &[u8]
    requires within { count ≤ length buffer.now }
    ensures front { result.now ≡ take count buffer.now }
    ensures bytes { IsBytes buffer.now }
{
    &buffer[..count]
}

/// The frame that a text says, or the report of a text that says none.
fn frame_in(number: u64, text: &[u8]) -> Result<Frame, Report>
    ensures came { (m : ℕ) → frame_said m result ≡ line_says m number (read text.now) }
    ensures valid { IfOk result IsFrame }
{
    let mut room = [0; MOST_BYTES];
    match read_line(text, &mut room) {
        Ok(Event::Frame { frame, .. }) => Ok(frame),
        Ok(Event::Datagram { .. } | Event::Tick { .. }) => Err(refused(CAPTURE_FORM, number)),
        Err(rule) => Err(refused(rule.number(), number)),
    }
}

/// The report of a text that breaks a rule, with the number of its turn.
fn refused(rule: u8, number: u64) -> Report
    ensures { result ≡ refused rule number }
{
    Report {
        rule,
        detail: Detail::Line(number),
    }
}

/// The text of an arrival: an LF at its end is no part of it, nor is a CR before that.
fn text_of(bytes: &[u8]) -> &[u8]
    ensures { result.now ≡ text_of bytes.now }
{
    if ends_in(b'\n', bytes) {
        without_last(b'\r', without_last(b'\n', bytes))
    } else {
        bytes
    }
}

/// These bytes without the last, where that is the one given.
fn without_last(byte: u8, bytes: &[u8]) -> &[u8]
    ensures { result.now ≡ strip_last byte bytes.now }
{
    if ends_in(byte, bytes) {
        &bytes[..bytes.len() - 1]
    } else {
        bytes
    }
}

/// Whether the last of these bytes is the one given.
fn ends_in(byte: u8, bytes: &[u8]) -> bool
    ensures { result ≡ ends_with_byte byte bytes.now }
{
    !bytes.is_empty() && bytes[bytes.len() - 1] == byte
}
