//! Rows that have to be said.

use readings::ROWS;
use sentence_text::Group;

/// Which rows have to be said, and who is told on the network that one isn't.
#[derive(Clone, Drop)]
pub struct WatchConfig {
    /// How long each row may stay unsaid, in milliseconds, by the row's number; none: it isn't watched.
    pub limits: [Option<u32>; ROWS],
    /// How alerts are said; none: they aren't.
    pub alerts: Option<AlertConfig>,
}

/// How alerts are said (IEC 61162-1, ALR).
#[derive(Clone, Copy)]
pub struct AlertConfig {
    /// The transmission group that they are sent to, which is sent nothing else.
    pub group: Group,
    /// The talker of the sentence, two capital letters.
    pub talker: [u8; 2],
}
