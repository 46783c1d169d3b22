//! How a plotter's course is said to the network's autopilots.

use crate::quantity_config::QuantityConfig;
use sentence_text::Group;

/// How the legs of plotters are said (IEC 61162-1, RMB, APB and XTE).
#[derive(Clone, Drop)]
pub struct NavConfig {
    /// The transmission group that they are sent to, which is sent nothing else.
    pub group: Group,
    /// How many legs may be in the making at once, 1 to 256.
    pub slots: u16,
    /// Whom the legs are taken from (PGN 129284), and the talker of the sentences. An error from the track counts as long as a leg.
    pub legs: QuantityConfig,
}
