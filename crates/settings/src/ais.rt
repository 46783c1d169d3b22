//! How position reports of ships around (NMEA 2000 PGN 129038) are passed on.

use sentence_text::Group;

/// How position reports of ships around are passed on.
#[derive(Clone, Drop)]
pub struct AisConfig {
    /// The transmission group that they are sent to, which is sent nothing else.
    pub group: Group,
    /// How many fast packets of such reports may be open, 1 to 256.
    pub slots: u16,
}
