//! How the frames of a fast packet are laid out.
ghost use Rattle.std.specs.Prelude.{◌≡◌, ◌/◌, ◌≤◌, length};
ghost use Rattle.fast_packet.specs.FastRuns as frames;
ghost use Rattle.fast_packet.specs.Assembly as assembly;

/// The longest message, in bytes.
pub(crate) const LONGEST: usize = 223;

/// Whether the frame is a frame 0 with a length from 1 to 223 that holds what it owes.
pub(crate) fn is_opener(bytes: &[u8]) -> bool
    ensures { result ≡ frames.is_opener bytes.now }
{
    if bytes.len() < 2 {
        return false;
    }
    let length = usize::from(bytes[1]);
    bytes[0] % 32 == 0 && length >= 1 && length <= LONGEST && bytes.len() >= 2 + length.min(6)
}

/// Whether the frame is no later frame: it has no byte, or the counter 0.
pub(crate) fn is_no_later(bytes: &[u8]) -> bool
    ensures { result ≡ frames.is_no_later bytes.now }
{
    bytes.is_empty() || bytes[0] % 32 == 0
}

/// How many frames a message of this length has.
#[tactic(auto, using(crate::proofs::Counts::need_is))]
pub(crate) fn need_of(length: u8) -> u16
    ensures { result ≡ frames.need_of length }
{
    1 + u16::from(length) / 7
}

/// What is kept of an opener: its sequence, from byte 0, and the length.
pub(crate) fn mark_of(first: u8, length: u8) -> u64
    ensures { result ≡ assembly.mark_of (first / 32) length }
{
    256 * u64::from(first / 32) + u64::from(length)
}

/// The bytes of a later frame from byte 1 to this place.
pub(crate) fn part(bytes: &[u8], end: usize) -> &[u8]
    requires start { 1 ≤ end }
    requires enough { end ≤ length bytes.now }
    ensures { result.now ≡ assembly.part_to end bytes.now }
{
    &bytes[1..end]
}
