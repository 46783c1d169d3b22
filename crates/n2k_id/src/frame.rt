ghost use Rattle.std.specs.Prelude.{◌≡◌, ◌-◌, ◌^◌, ◌<◌, ◌≤◌, ◌↔◌, ◌++◌, length, replicate, IsSome, IfSome};

use crate::identifier::IDENTIFIER_END;

/// A CAN data frame with a 29-bit identifier (ISO 11898-1's extended format).
///
/// A frame is valid where `id` is below `2^29`, `len` is at most 8 and the bytes from place `len`
/// on are 0, so that two valid frames are equal exactly where they look the same on the bus.
#[derive(Clone, Copy, Default, PartialEq, Eq)]
pub struct Frame {
    /// The identifier, whose fields `parts` reads.
    pub id: u32,
    /// How many data bytes the frame holds.
    pub len: u8,
    /// The data bytes, and 0 in each place beyond them.
    pub bytes: [u8; 8],
}

impl Frame {
    ghost use Rattle.n2k_id.specs.Frame.{IsFrame, BusFrame, Carries, held_bytes};

    /// The valid frame with this identifier and these data bytes. None exactly where the identifier
    /// has more than 29 bits or the piece more than 8 bytes.
    #[tactic(auto, using(crate::proofs::FrameLemmas::padded_carries, crate::proofs::FrameLemmas::carries_only))]
    pub fn of(id: u32, piece: &[u8]) -> Option<Frame>
        ensures some { IsSome result ↔ ((id < 2 ^ 29) × (length piece.now ≤ 8)) }
        ensures frame { IfSome result (Carries (record { id = id; held = piece.now })) }
        ensures only { (frame : Frame) → Carries (record { id = id; held = piece.now }) frame → result ≡ Some frame }
    {
        if id >= IDENTIFIER_END || piece.len() > 8 {
            return None;
        }
        Some(Frame {
            id,
            len: piece.len() as u8,
            bytes: padded(piece),
        })
    }

    /// The data bytes that the frame holds, in their order on the bus.
    pub fn held(&self) -> &[u8]
        requires { IsFrame self.now }
        ensures { result.now ≡ held_bytes self.now }
    {
        &self.bytes[..usize::from(self.len)]
    }
}

fn padded(piece: &[u8]) -> [u8; 8]
    requires { length piece.now ≤ 8 }
    ensures { result ≡ piece.now ++ replicate (8 - length piece.now) 0 }
{
    let mut bytes = [0; 8];
    bytes[..piece.len()].copy_from_slice(piece);
    bytes
}
