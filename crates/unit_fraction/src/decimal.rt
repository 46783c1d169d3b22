/// A decimal as it stood in a text: `digits / 10^places` with its sign.
#[derive(Clone, Copy)]
pub struct Decimal {
    pub negative: bool,
    pub digits: u64,
    pub places: u8,
}

/// Why a text is no decimal.
#[derive(Clone, Copy, PartialEq, Eq)]
pub enum DecimalFault {
    /// There is no text.
    Empty,
    /// The first byte that doesn't fit, or the length of a text in which no digit came.
    Byte(usize),
    /// There are more than 12 digits, leading zeros counted.
    Long,
}
