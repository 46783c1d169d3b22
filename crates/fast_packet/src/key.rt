//! Whose message it is.

/// A sender and what it sends: the frames of one key make one message after another.
#[derive(Clone, Copy, PartialEq, Eq, PartialOrd, Ord)]
pub struct FastKey {
    pub source: u8,
    pub pgn: u32,
}
