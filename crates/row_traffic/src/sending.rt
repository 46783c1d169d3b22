//! A reading on its way to the bus: from the gateway's own address to all, in one frame or as a fast packet.
ghost use Rattle.std.specs.Prelude.{◌≡◌, ◌+◌, ◌<◌, ◌≤◌, [], ◌∷◌, false, length, map};
ghost use Rattle.n2k_id.specs.Identifier.{CanJoin};
ghost use Rattle.readings.specs.Rows.{IsValid};
ghost use Rattle.fast_packet.specs.FastRuns.{longest, need_of, frames_of};
ghost use Rattle.history.specs.Opens.{is_fast};
ghost use Rattle.gate_outbox.specs.Output.{and_told, most_told};
ghost use Rattle.row_traffic.specs.Sending.{reading_frames, sent_with};

use fast_packet::{FrameList, split};
use gate_outbox::StepEmits;
use gate_outbox::frames::frame_of;
use n2k_id::Parts;
use n2k_id::address::ALL;
use pgn_profile::{Kind, Payload, kind, priority, write};
use readings::{Reading, row};

/// Sends the reading from the address, as a fast packet of this sequence where its PGN has those.
pub(crate) fn send_reading(address: u8, sequence: u8, reading: &Reading, out: &mut StepEmits)
    requires valid { IsValid reading.now }
    requires sequence { sequence ≤ 7 }
    ensures emits { out.new ≡ and_told most_told out.old (reading_frames address sequence reading.now) }
{
    let mut payload = Payload::new();
    let pgn = write(reading, &mut payload);
    let parts = Parts {
        priority: priority(row(reading)),
        pgn,
        destination: ALL,
        source: address,
    };
    if is_fast(kind(pgn)) {
        send_fast(parts, sequence, &payload, out);
    } else {
        send_single(parts, &payload, out);
    }
}

/// Whether the message comes as a fast packet.
pub(crate) fn is_fast(kind: Kind) -> bool
    ensures { result ≡ is_fast kind }
{
    kind == Kind::Fast
}

/// Sends a message in one frame.
fn send_single(parts: Parts, payload: &[u8], out: &mut StepEmits)
    requires parts { CanJoin parts }
    requires fits { length payload.now ≤ 8 }
    ensures emits { out.new ≡ and_told most_told out.old (sent_with parts payload.now ∷ []) }
{
    out.send(frame_of(parts, payload));
}

/// Sends a message as a fast packet.
fn send_fast(parts: Parts, sequence: u8, payload: &[u8], out: &mut StepEmits)
    requires parts { CanJoin parts }
    requires sequence { sequence ≤ 7 }
    requires some { 1 ≤ length payload.now }
    requires fits { length payload.now ≤ longest }
    ensures emits { out.new ≡ and_told most_told out.old (map (sent_with parts) (frames_of sequence payload.now)) }
{
    let mut pieces = FrameList::new();
    let _fits = split(sequence, payload, &mut pieces);
    send_pieces(parts, &pieces, out);
}

/// Sends a frame for each piece.
fn send_pieces(parts: Parts, pieces: &[[u8; 8]], out: &mut StepEmits)
    requires parts { CanJoin parts }
    ensures emits { out.new ≡ and_told most_told out.old (map (sent_with parts) pieces.now) }
{
    for piece in pieces {
        send_single(parts, piece, out);
    }
}
