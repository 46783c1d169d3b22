use crate::group_part::GroupPart;
use sentence_text::Sfi;

/// What the TAG blocks of a line say.
#[derive(Clone, Copy)]
pub struct Tag<'a> {
    /// Who speaks: `s`.
    pub source: Sfi,
    /// Who is spoken to: `d`.
    pub destination: Option<&'a [u8]>,
    /// `g`.
    pub group: Option<GroupPart>,
    /// The count of the line: `n`.
    pub count: Option<u16>,
}
