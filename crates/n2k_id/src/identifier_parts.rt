/// What a 29-bit identifier says (ISO 11783-3, 5.2).
#[derive(Clone, Copy)]
pub struct Parts {
    /// 0 to 7; 0 goes first on the bus.
    pub priority: u8,
    /// The parameter group number, of 18 bits: extended data page, data page, PF, and PS where it
    /// is part of the number.
    pub pgn: u32,
    /// The address that the frame is for; 255 is all.
    pub destination: u8,
    /// The address of the sender.
    pub source: u8,
}
