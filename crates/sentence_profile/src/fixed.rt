/// A number with a fixed count of digits, and behind its point so many more that write another number.
#[derive(Clone, Copy)]
pub struct Fixed {
    pub whole: u64,
    pub part: u64,
    pub places: u8,
}
