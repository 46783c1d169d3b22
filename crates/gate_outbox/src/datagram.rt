//! The datagram of a step.

use sentence_text::Group;
use tag_block::Packet;

/// A datagram for a transmission group of the network (IEC 61162-450).
#[derive(Drop)]
pub struct Datagram {
    pub group: Group,
    pub packet: Packet,
}
