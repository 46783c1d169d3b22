//! How heartbeats are said, by which who listens tells a silent boat from a gateway that is gone.

use sentence_text::Group;

/// How the sentence HBT is said on the network (IEC 61162-1).
#[derive(Clone, Copy)]
pub struct NetHeartbeat {
    /// The transmission group that it is sent to, which is sent nothing else.
    pub group: Group,
    /// How many seconds one is due after the other, 1 to 999.
    pub every_s: u32,
    /// The talker of the sentence, two capital letters.
    pub talker: [u8; 2],
}

/// How heartbeats are said.
#[derive(Clone, Copy)]
pub struct HeartbeatConfig {
    /// On the network; none: they aren't said there.
    pub net: Option<NetHeartbeat>,
    /// How many seconds one frame of PGN 126993 is due after the other, 1 to 60; none: none is sent.
    pub bus_every_s: Option<u32>,
}
