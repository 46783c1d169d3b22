//! Which group a line belongs to.

use sentence_text::Sfi;

/// Who sends the lines of a group, and the code that they have in common.
#[derive(Clone, Copy, PartialEq, Eq, PartialOrd, Ord)]
pub struct GroupKey {
    pub sfi: Sfi,
    pub code: u16,
}
