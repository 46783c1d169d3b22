//! A configuration beside the devices that no row is taken from, and the sentences that are read by choice.

use crate::config::Config;
use arrayvec::ArrayVec;
use history::OptionalSentences;
use n2k_id::Pattern;

/// A configuration, the devices that no row is taken from, though they be listed in it or others be taken, and which sentences are read.
#[derive(Drop)]
pub struct SelectiveConfig {
    pub base: Config,
    pub ignored: ArrayVec<Pattern, 16>,
    pub optional: OptionalSentences,
}
