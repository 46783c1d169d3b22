ghost use Rattle.std.specs.Prelude.{◌≡◌, ◌+◌, ◌<◌, ◌≤◌, ◌^◌, ◌↔◌, length, slice_index, take, drop, true, false, ◌==◌, Ok, Err, Some, None, is_some, IfOk, MatchOption};
ghost use Rattle.std.specs.Char.{is_ascii_hexdigit};
ghost use Rattle.std.specs.List.{list_all};
ghost use Rattle.n2k_id.specs.Frame.{IsFrame};
ghost use Rattle.capture_text.specs.Capture.{IsLine, IsNotExtended, IsNoLine, longest_line};
ghost use Rattle.gate_events.specs.Event.{Seen, IsValid, view};
ghost use Rattle.capture_text.specs.Reading as spec;

use crate::byte::{is_end, is_group, name_run, up_to_space};
use crate::hexadecimal::{all_hexadecimal, number, put_all, put_eight};
use crate::line_rule::LineRule;
use crate::time::time;
use gate_events::Event;
use n2k_id::Frame;
use sentence_text::byte_at;

/// The most bytes of a line. A longer one is refused unread.
pub const LONGEST_LINE: usize = 4096;

/// The most bytes of the datagram that a line holds, each in two digits.
pub const MOST_BYTES: usize = 2048;

/// Room for the bytes of the datagram that a line holds.
pub type Room = [u8; MOST_BYTES];

/// Puts the bytes that the digits write into the room, and says how many there are.
fn put_bytes(digits: &[u8], room: &mut [u8]) -> Option<usize>
    ensures { spec.IsPut result room.new (spec.bytes_of (length room.old) digits.now) }
{
    if digits.len() > 2 * room.len() {
        return None;
    }
    let count = digits.len() / 2;
    if put_all(digits, &mut room[..count]) {
        Some(count)
    } else {
        None
    }
}

/// Puts the bytes that are written up to the end or a space into the room, and says how many there are.
#[tactic(auto, using(crate::proofs::Data::whole_is_bytes), unfolding(crate::specs::Reading::bytes_before_end))]
fn put_bytes_before_end(text: &[u8], room: &mut [u8]) -> Option<usize>
    ensures { spec.IsPut result room.new (spec.bytes_before_end (length room.old) text.now) }
{
    // Nearly every line ends with its digits, so that no space has to be looked for.
    match put_bytes(text, room) {
        Some(count) => Some(count),
        None => put_bytes(up_to_space(text), room),
    }
}

/// Puts the bytes of a datagram into the room, and says how many there are.
#[tactic(auto, unfolding(crate::specs::Reading::bytes_at))]
fn put_datagram(tail: &[u8], room: &mut Room) -> Option<usize>
    ensures { spec.IsPut result room.new (spec.bytes_at tail.now) }
{
    if byte_at(tail, 0) != b' ' || byte_at(tail, 5) != b'#' || !is_group(&tail[1..5]) {
        return None;
    }
    put_bytes_before_end(tail.split_at(6).1, &mut room[..])
}

/// Puts the data of a frame into the room, and says how many bytes there are.
fn put_data(behind: &[u8], room: &mut [u8; 8]) -> Option<usize>
    ensures { spec.IsPut result room.new (spec.data_at behind.now) }
{
    put_bytes_before_end(behind, &mut room[..])
}

/// Whether a remote frame, or a frame of CAN FD, follows its identifier.
fn is_other_kind(behind: &[u8]) -> bool
    ensures { result ≡ spec.is_other_kind behind.now }
{
    byte_at(behind, 0) == b'R' || byte_at(behind, 0) == b'#'
}

/// Whether data follow their identifier.
fn are_data(behind: &[u8]) -> bool
    ensures { result ≡ is_some (spec.data_at behind.now) }
{
    put_data(behind, &mut [0; 8]).is_some()
}

/// What a frame with an identifier of three digits breaks.
fn short_frame(identifier: &[u8], behind: &[u8]) -> LineRule
    ensures { Err result ≡ spec.short_frame (list_all is_ascii_hexdigit identifier.now) behind.now }
{
    if all_hexadecimal(identifier) && (is_other_kind(behind) || are_data(behind)) {
        LineRule::NotExtended
    } else {
        LineRule::Form
    }
}

/// The frame of an identifier and of its data.
pub(crate) fn frame_of(id: u32, held: &[u8]) -> Result<Frame, LineRule>
    requires { length held.now ≤ 8 }
    ensures reads { spec.bus_frame_in result ≡ spec.frame_with id (Some held.now) }
    ensures valid { IfOk result IsFrame }
{
    match Frame::of(id, held) {
        Some(frame) => Ok(frame),
        None => Err(LineRule::NotExtended),
    }
}

/// Puts the data of a frame into the room, if they are eight bytes and nothing is behind them, as in most frames. Says whether they are.
#[tactic(auto, using(crate::proofs::Data::eight_are_data))]
pub(crate) fn put_eight_data(behind: &[u8], room: &mut [u8; 8]) -> bool
    ensures data { result ≡ true → (spec.data_at behind.now ≡ Some room.new) × (spec.is_other_kind behind.now ≡ false) }
    ensures digits { result ≡ true → list_all is_ascii_hexdigit behind.now ≡ true }
{
    behind.len() == 16 && put_eight(behind, &mut room[..])
}

/// The frame of an identifier, and of the data behind its `#`.
fn frame_with(id: u32, behind: &[u8]) -> Result<Frame, LineRule>
    ensures reads { spec.bus_frame_in result ≡ spec.frame_with id (spec.data_at behind.now) }
    ensures valid { IfOk result IsFrame }
{
    let mut room = [0; 8];
    match put_data(behind, &mut room) {
        None => Err(LineRule::Form),
        Some(count) => frame_of(id, &room[..count]),
    }
}

/// The frame of an identifier of eight digits.
fn wide_frame(identifier: &[u8], behind: &[u8]) -> Result<Frame, LineRule>
    requires eight { length identifier.now ≡ 8 }
    ensures reads { spec.bus_frame_in result ≡ spec.wide_frame (spec.number_of identifier.now) behind.now }
    ensures valid { IfOk result IsFrame }
{
    let Some(id) = number(identifier) else {
        return Err(LineRule::Form);
    };
    let mut room = [0; 8];
    if put_eight_data(behind, &mut room) {
        return frame_of(id, &room);
    }
    if is_other_kind(behind) {
        return Err(LineRule::NotExtended);
    }
    frame_with(id, behind)
}

/// What stands before and behind a `#` at this place, if one stands there.
fn split_at_hash(text: &[u8], place: usize) -> Option<(&[u8], &[u8])>
    requires { place < 2 ^ 32 }
    ensures { MatchOption result ((slice_index text.now place == 35) ≡ false)
        (λ t. ((slice_index text.now place == 35) ≡ true) × (t.0.now ≡ take place text.now) × (t.1.now ≡ drop (place + 1) text.now)) }
{
    if byte_at(text, place) != b'#' {
        return None;
    }
    Some((&text[..place], &text[place + 1..]))
}

/// The frame of the bus behind the interface.
#[tactic(auto, unfolding(crate::specs::Reading::frame_at))]
fn frame(tail: &[u8]) -> Result<Frame, LineRule>
    ensures reads { spec.bus_frame_in result ≡ spec.frame_at tail.now }
    ensures valid { IfOk result IsFrame }
{
    if byte_at(tail, 0) != b' ' {
        return Err(LineRule::Form);
    }
    let digits = &tail[1..];
    if let Some((identifier, behind)) = split_at_hash(digits, 3) {
        return Err(short_frame(identifier, behind));
    }
    match split_at_hash(digits, 8) {
        Some((identifier, behind)) => wide_frame(identifier, behind),
        None => Err(LineRule::Form),
    }
}

/// The interface at the front, and what follows it.
fn interface(rest: &[u8]) -> Option<(&[u8], &[u8])>
    ensures reads { MatchOption result (spec.interface_at rest.now ≡ None)
        (λ t. spec.interface_at rest.now ≡ Some (record { name = t.0.now; tail = t.1.now })) }
{
    let count = name_run(rest);
    if count < 1 || count > 16 {
        return None;
    }
    Some(rest.split_at(count))
}

/// What follows the time says, by the interface.
#[tactic(auto, unfolding(crate::specs::Reading::seen_behind))]
fn event<'a>(
    moment: u64,
    name: &[u8],
    tail: &[u8],
    room: &'a mut Room,
) -> Result<Event<'a>, LineRule>
    ensures reads { spec.seen result ≡ spec.seen_behind moment name.now tail.now }
    ensures valid { IfOk result IsValid }
{
    if name == b"tick".as_slice() {
        if !is_end(tail) {
            return Err(LineRule::Form);
        }
        return Ok(Event::Tick { moment });
    }
    if name == b"udp0".as_slice() {
        return match put_datagram(tail, room) {
            Some(count) => Ok(Event::Datagram {
                moment,
                bytes: &room[..count],
            }),
            None => Err(LineRule::Form),
        };
    }
    let frame = frame(tail)?;
    Ok(Event::Frame { moment, frame })
}

#[tactic(auto, unfolding(crate::specs::Reading::read))]
fn parse<'a>(line: &[u8], room: &'a mut Room) -> Result<Event<'a>, LineRule>
    ensures reads { spec.seen result ≡ spec.read line.now }
    ensures valid { IfOk result IsValid }
{
    if line.len() > LONGEST_LINE {
        return Err(LineRule::Long);
    }
    let Some((moment, rest)) = time(line) else {
        return Err(LineRule::Form);
    };
    let Some((name, tail)) = interface(rest) else {
        return Err(LineRule::Form);
    };
    event(moment, name, tail, room)
}

/// What a line of a capture says, without its line end. The bytes of a datagram are put into the room.
pub fn read_line<'a>(line: &[u8], room: &'a mut Room) -> Result<Event<'a>, LineRule>
    // What is read is spelled so.
    ensures found { IfOk result (λ e. IsLine (view e) line.now) }
    // What is spelled so is read.
    ensures only { (event : Seen) → IsLine event line.now → spec.seen result ≡ Ok event }
    // Which rule it is.
    ensures long { (result ≡ Err LineRule.Long) ↔ (longest_line < length line.now) }
    ensures not_extended { (result ≡ Err LineRule.NotExtended) ↔ IsNotExtended line.now }
    ensures form { (result ≡ Err LineRule.Form) ↔ IsNoLine line.now }
    ensures exact { spec.seen result ≡ spec.read line.now }
    // A frame is valid.
    ensures valid { IfOk result IsValid }
{
    parse(line, room)
}
