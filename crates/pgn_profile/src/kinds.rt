/// How a message of a PGN comes over the bus.
#[derive(Clone, Copy)]
pub enum Kind {
    /// In a single frame.
    Single,
    /// As a fast packet, in frames that have to be joined.
    Fast,
    /// The profile doesn't read this PGN.
    Outside,
}
