//! What a frame is to the assembly of its key.
ghost use Rattle.std.specs.Prelude.{◌≡◌, []};
ghost use Rattle.slot_views.specs.Answers.{as_entry};
ghost use Rattle.fast_packet.specs.Assembly as assembly;

use slot_views::Kept;

/// What a frame is.
#[derive(Clone, Copy)]
pub enum Verdict {
    /// It has no byte, no length that a message may have, or less than it owes.
    Short,
    /// A frame 0 that opens an assembly.
    Opens,
    /// A later frame, with no assembly open.
    Orphan,
    /// The last frame again.
    Again,
    /// A later frame of another sequence, or with another counter.
    OutOfOrder,
    /// The next frame, whose part of the message ends at this place.
    Next(usize),
}

impl Verdict {
    ghost use Rattle.fast_packet.specs.Answers.{restarted_by};

    /// Whether a message that is open is given up for the one that the frame opens.
    pub(crate) fn restarts(self, held: bool) -> bool
        ensures { result ≡ restarted_by held self }
    {
        match self {
            Verdict::Opens => held,
            _ => false,
        }
    }
}

/// What a later frame is to an assembly that is open, by what is kept of it and its bytes so far.
pub(crate) fn later_verdict(kept: Kept, held: &[u8], bytes: &[u8]) -> Verdict
    ensures { result ≡ assembly.later_verdict (Some (as_entry kept held.now)) bytes.now }
{
    if is_again(kept, held, bytes) {
        return Verdict::Again;
    }
    if !follows(kept, bytes) {
        return Verdict::OutOfOrder;
    }
    let left = (kept.mark % 256).saturating_sub(held.len() as u64);
    let end = 1 + left.min(7) as usize;
    if bytes.len() < end {
        return Verdict::Short;
    }
    Verdict::Next(end)
}

// Whether the frame is the last one again, where that was neither frame 0 nor the last one of the message.
fn is_again(kept: Kept, held: &[u8], bytes: &[u8]) -> bool
    ensures { result ≡ assembly.is_again (as_entry kept held.now) bytes.now }
{
    bytes.len() == 8
        && 2 <= kept.next
        && kept.next < kept.need
        && u64::from(bytes[0]) == 32 * (kept.mark / 256) + u64::from(kept.next - 1)
        && bytes[1..] == held[held.len().saturating_sub(7)..]
}

// Whether the frame has the next counter and the sequence.
fn follows(kept: Kept, bytes: &[u8]) -> bool
    ensures { result ≡ assembly.follows (as_entry kept []) bytes.now }
{
    match bytes.first() {
        None => kept.next == 0 && kept.mark < 256,
        Some(&first) => {
            u16::from(first % 32) == kept.next && u64::from(first / 32) == kept.mark / 256
        }
    }
}
