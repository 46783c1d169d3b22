//! What goes out, frame by frame.

ghost use Rattle.std.specs.Prelude.{◌≡◌, ◌+◌, ◌^◌, ◌<◌, ◌≤◌, ◌++◌, [], ◌∷◌, length, map};
ghost use Rattle.std.specs.List.{AllByRecursion};
ghost use Rattle.n2k_id.specs.Frame.{IsFrame, bus_frame};
ghost use Rattle.n2k_id.specs.Identifier.{CanJoin, identifier_of};
ghost use Rattle.fast_packet.specs.FastRuns.{need_of, frames_of};
ghost use Rattle.bus_identity.specs.Answers.{answer_parts, answered_address, frame_of};

use arrayvec::ArrayVec;
use fast_packet::{FrameList, split};
use n2k_id::address::{ALL, NULL_ADDRESS};
use n2k_id::{Frame, Parts, join};

/// The frames of an answer.
pub type Frames = ArrayVec<Frame, 20>;

/// All answers have this priority.
const PRIORITY: u8 = 6;

/// To whom an answer goes: who asked; to all where that sender has no address of its own.
pub(crate) fn answered_address(source: u8) -> u8
    ensures { result ≡ answered_address source }
{
    if source < NULL_ADDRESS { source } else { ALL }
}

/// The identifier of an answer.
pub(crate) fn answer_identifier(pgn: u32, destination: u8, own: u8) -> u32
    requires { CanJoin (answer_parts pgn destination own) }
    ensures identifier { result ≡ identifier_of (answer_parts pgn destination own) }
    ensures fits { result < 2 ^ 29 }
{
    join(Parts {
        priority: PRIORITY,
        pgn,
        destination,
        source: own,
    })
    .unwrap()
}

/// Appends a message as a fast packet, for which there is room.
#[tactic(auto, using(crate::proofs::FrameLemmas::length_frames_of))]
pub(crate) fn append_message(id: u32, sequence: u8, payload: &[u8], out: &mut Frames)
    requires identifier { id < 2 ^ 29 }
    requires sequence { sequence ≤ 7 }
    requires some { 1 ≤ length payload.now }
    requires fits { length payload.now ≤ 134 }
    requires room { length out.old.items + need_of (length payload.now) ≤ 20 }
    requires valid { AllByRecursion IsFrame out.old.items }
    ensures frames { map bus_frame out.new.items ≡ map bus_frame out.old.items ++ map (frame_of id) (frames_of sequence payload.now) }
    ensures valid { AllByRecursion IsFrame out.new.items }
    ensures length { length out.new.items ≡ length out.old.items + need_of (length payload.now) }
{
    let mut pieces = FrameList::new();
    let _fits = split(sequence, payload, &mut pieces);
    append_pieces(id, &pieces, out);
}

/// Appends a frame for each piece, for which there is room.
fn append_pieces(id: u32, pieces: &[[u8; 8]], out: &mut Frames)
    requires identifier { id < 2 ^ 29 }
    requires room { length out.old.items + length pieces.now ≤ 20 }
    requires valid { AllByRecursion IsFrame out.old.items }
    ensures frames { map bus_frame out.new.items ≡ map bus_frame out.old.items ++ map (frame_of id) pieces.now }
    ensures valid { AllByRecursion IsFrame out.new.items }
{
    for piece in pieces {
        append_frame(id, piece, out);
    }
}

/// Appends a frame, for which there is room.
pub(crate) fn append_frame(id: u32, piece: &[u8; 8], out: &mut Frames)
    requires identifier { id < 2 ^ 29 }
    requires room { length out.old.items < 20 }
    requires valid { AllByRecursion IsFrame out.old.items }
    ensures frames { map bus_frame out.new.items ≡ map bus_frame out.old.items ++ frame_of id piece.now ∷ [] }
    ensures valid { AllByRecursion IsFrame out.new.items }
    ensures length { length out.new.items ≡ length out.old.items + 1 }
{
    out.push(Frame::of(id, piece).unwrap());
}
