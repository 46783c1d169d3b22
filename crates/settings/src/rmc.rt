//! How the sentence RMC is said, which joins what several rows say (IEC 61162-1).

use sentence_text::Group;

/// How the sentence RMC is said.
#[derive(Clone, Drop)]
pub struct RmcConfig {
    /// The transmission group that it is sent to, which is sent nothing else.
    pub group: Group,
    /// The talker of the sentence, two capital letters.
    pub talker: [u8; 2],
}
