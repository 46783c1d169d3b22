//! A message of a report that was read.

use ais_report::{AisFault, AisReport};

/// A message of a report: from where, and what its payload says, with the letter of its channel.
#[derive(Drop)]
pub(crate) struct Said {
    pub(crate) source: u8,
    pub(crate) pgn: u32,
    pub(crate) says: Result<(AisReport, u8), AisFault>,
}
