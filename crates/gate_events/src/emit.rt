use n2k_id::Frame;
use readings::Row;
use sentence_text::{Group, Sfi};

/// What a report names besides its rule.
#[derive(Clone, Copy)]
pub enum Detail {
    /// The rule says all.
    Nothing,
    /// Who sent a message, and its parameter group number.
    Source { address: u8, pgn: u32 },
    /// An address of the bus.
    Address(u8),
    /// The gateway's own address; None: it has none.
    Own { address: Option<u8> },
    /// A row, and the address that it is taken from.
    Row { row: Row, address: u8 },
    /// A row that has to be said, and whether it is said.
    Watched { row: Row, said: bool },
    /// A place in a datagram.
    At(u16),
    /// A place in a datagram, and the number of a field of the sentence there.
    AtField { at: u16, field: u8 },
    /// The source and the code of a group of lines.
    GroupKey { sfi: Sfi, code: u16 },
    /// The number of a line of the capture.
    Line(u64),
    /// The link of the bus.
    Bus,
    /// The link of the network.
    Net,
}

/// A rule that was broken, by its number.
#[derive(Clone, Copy)]
pub struct Report {
    pub rule: u8,
    pub detail: Detail,
}

/// What a gateway emits.
#[derive(Clone, Copy)]
pub enum Emit<'a> {
    /// A frame for the bus.
    Can(Frame),
    /// A datagram for a transmission group of the network.
    Net(Group, &'a [u8]),
    /// What was refused or given up.
    Report(Report),
}
