/// The place of a line in a group of lines: the number of the line, the total of lines, and the group's code.
#[derive(Clone, Copy)]
pub struct GroupPart {
    /// From 1 to the total.
    pub number: u8,
    /// From 1 to 9.
    pub total: u8,
    /// From 1 to 9999.
    pub code: u16,
}
