//! A message into its frames.
ghost use Rattle.std.specs.Prelude.{◌≡◌, ◌+◌, ◌-◌, ◌<◌, ◌≤◌, ◌↔◌, ◌++◌, IsTrue, length, slice_index_or};
ghost use Rattle.std.specs.Bool.{OnTrue, OnFalse};
ghost use Rattle.fast_packet.specs.FastRuns.{longest, CanSplit, frames_of};
ghost use Rattle.fast_packet.specs.FastRuns as parts;

use crate::frames::{LONGEST, need_of};
use arrayvec::ArrayVec;

/// The frames of one message, each of 8 bytes.
pub type FrameList = ArrayVec<[u8; 8], 32>;

/// Appends the frames of the payload, the last one filled with 255. False where the sequence is above 7, the payload has no byte
/// or more than 223, or the list has no room for all of them; then nothing changes.
pub fn split(sequence: u8, payload: &[u8], out: &mut FrameList) -> bool
    ensures can { IsTrue result ↔ CanSplit sequence payload.now out.old.items }
    ensures frames { OnTrue result (out.new.items ≡ out.old.items ++ frames_of sequence payload.now) }
    ensures refused { OnFalse result (out.new ≡ out.old) }
{
    if sequence > 7 || payload.is_empty() || payload.len() > LONGEST {
        return false;
    }
    let need = need_of(payload.len() as u8);
    if usize::from(need) > out.remaining_capacity() {
        return false;
    }
    append(sequence, payload, need, out);
    true
}

// Appends that many frames, for which there is room.
fn append(sequence: u8, payload: &[u8], need: u16, out: &mut FrameList)
    requires sequence { sequence ≤ 7 }
    requires some { 1 ≤ need }
    requires counter { need ≤ 32 }
    requires length { length payload.now ≤ longest }
    requires room { length out.old.items + need ≤ 32 }
    ensures { out.new.items ≡ out.old.items ++ parts.frames_to sequence payload.now (need - 1) }
{
    out.push(first_frame(sequence, payload));
    for before in 0..need - 1 {
        out.push(later_frame(sequence, payload, before as u8));
    }
}

// Frame 0.
fn first_frame(sequence: u8, payload: &[u8]) -> [u8; 8]
    requires sequence { sequence ≤ 7 }
    requires length { length payload.now ≤ longest }
    ensures { result ≡ parts.first_frame sequence payload.now }
{
    [
        32 * sequence,
        payload.len() as u8,
        byte_at(payload, 0),
        byte_at(payload, 1),
        byte_at(payload, 2),
        byte_at(payload, 3),
        byte_at(payload, 4),
        byte_at(payload, 5),
    ]
}

// The frame after so many later ones.
fn later_frame(sequence: u8, payload: &[u8], before: u8) -> [u8; 8]
    requires sequence { sequence ≤ 7 }
    requires counter { before < 31 }
    ensures { result ≡ parts.later_frame sequence payload.now before }
{
    let start = 6 + 7 * usize::from(before);
    [
        32 * sequence + before + 1,
        byte_at(payload, start),
        byte_at(payload, start + 1),
        byte_at(payload, start + 2),
        byte_at(payload, start + 3),
        byte_at(payload, start + 4),
        byte_at(payload, start + 5),
        byte_at(payload, start + 6),
    ]
}

// A byte of the message, or 255 past its end.
fn byte_at(payload: &[u8], place: usize) -> u8
    ensures { result ≡ slice_index_or payload.now place 255 }
{
    payload.get(place).copied().unwrap_or(255)
}
