//! A line as nearly all are laid out: `(1700000000.000000) can0 09F11217#00FF7FFF7FFF7FFD`. Each of its parts has its place, so that none
//! is looked for.
ghost use Rattle.std.specs.Prelude.{◌≡◌, true, drop, length, slice_index, take, Ok, IfSome};
ghost use Rattle.n2k_id.specs.Frame.{IsFrame, bus_frame};
ghost use Rattle.gate_events.specs.Event.{frame};
ghost use Rattle.capture_text.specs.Reading.{HasBusOfFour, HasUsualTime, read};
ghost use Rattle.capture_text.specs.Usual.{IsFront, has_no_controls};

use crate::byte::is_bus;
use crate::hexadecimal::number;
use crate::reading::{frame_of, put_eight_data};
use crate::time::usual_moment;
use n2k_id::Frame;

/// How many bytes it has.
const USUAL_LINE: usize = 50;

/// How many of its bytes are looked at in one go: all but the last two digits.
const FRONT: usize = 48;

/// The least byte that each place may have, and the greatest one. Hexadecimal digits are looked at again where they are read.
static LEAST: [u8; FRONT] = *b"(0000000000.000000) !!!! 00000000#00000000000000";

static GREATEST: [u8; FRONT] = *b"(9999999999.999999) ~~~~ ffffffff#ffffffffffffff";

/// Whether each byte is one that its place may have. All are looked at, many at once, and none is a reason to stop.
///
/// It is kept apart: behind a test of one of the bytes the compiler would take them one by one.
#[inline(never)]
fn is_front(front: &[u8]) -> bool
    requires { length front.now ≡ 48 }
    ensures { result ≡ true → IsFront front.now }
{
    let mut all = true;
    for i in 0..FRONT {
        all = all & (LEAST[i] <= front[i]) & (front[i] <= GREATEST[i]);
    }
    all
}

/// Whether a line of fifty bytes has a time, a bus and the `#` in their places.
fn has_usual_front(line: &[u8]) -> bool
    requires { length line.now ≡ 50 }
    ensures time { result ≡ true → HasUsualTime line.now }
    ensures bus { result ≡ true → HasBusOfFour (drop 20 line.now) }
    ensures mark { result ≡ true → slice_index line.now 33 ≡ 35 }
    ensures no_controls { result ≡ true → has_no_controls (take 48 line.now) ≡ true }
{
    is_front(&line[..FRONT]) && is_bus(&line[20..24])
}

/// The moment and the frame of a line of the layout that nearly all have; none of another line.
///
/// Its caller has a copy of it, so that one that doesn't use the moment doesn't count it.
#[inline(always)]
pub fn usual_frame(line: &[u8]) -> Option<(u64, Frame)>
    // What `read_line` gives of the line.
    ensures reads { IfSome result (λ t. read line.now ≡ Ok (frame t.0 (bus_frame t.1))) }
    // The frame is valid.
    ensures valid { IfSome result (λ t. IsFrame t.1) }
    // The line has no LF and no CR.
    ensures no_controls { IfSome result (λ t. has_no_controls line.now ≡ true) }
{
    if line.len() != USUAL_LINE || !has_usual_front(line) {
        return None;
    }
    let id = number(&line[25..33])?;
    let mut bytes = [0; 8];
    if !put_eight_data(&line[34..], &mut bytes) {
        return None;
    }
    match frame_of(id, &bytes) {
        Ok(frame) => Some((usual_moment(line), frame)),
        Err(_) => None,
    }
}
