//! A message that is heard.

use n2k_id::Name;

/// A message that is complete, while its payload is lent.
#[derive(Clone, Copy)]
pub struct HeardMessage<'a> {
    /// When its last frame came, in microseconds.
    pub moment: u64,
    pub source: u8,
    /// The NAME that holds the source.
    pub name: Name,
    pub pgn: u32,
    pub payload: &'a [u8],
}
