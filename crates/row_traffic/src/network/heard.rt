//! A line of a datagram whose sentences are read.

use sentence_profile::OptionalSentences;

/// When a datagram came, and how the gateway stood then.
#[derive(Clone, Copy)]
pub struct Came {
    /// In microseconds.
    pub moment: u64,
    /// Whether it was ready.
    pub ready: bool,
    /// Its own address on the bus.
    pub own: Option<u8>,
}

/// A line that is taken.
#[derive(Clone, Copy)]
pub(crate) struct Heard {
    pub(crate) came: Came,
    /// Where it begins in its datagram.
    pub(crate) place: u16,
    /// The place of its source among those that are listed.
    pub(crate) source: u8,
    /// Which of its sentences are read that a configuration decides on.
    pub(crate) optional: OptionalSentences,
}
