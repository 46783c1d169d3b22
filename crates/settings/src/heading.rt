//! How headings are joined: a magnetic one with the variation of another message, to one that is true.

use crate::quantity_config::QuantityConfig;
use sentence_text::Group;

/// How joined headings are said (IEC 61162-1, HDG, HDM and HDT).
#[derive(Clone, Drop)]
pub struct HeadingConfig {
    /// The transmission group that they are sent to, which is sent nothing else.
    pub group: Group,
    /// Whom the variation is taken from (PGN 127258), and the talker of the sentences.
    pub variation: QuantityConfig,
    /// Whether HDM is said, too.
    pub hdm: bool,
}
