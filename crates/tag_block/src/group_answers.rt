//! What the assembler of groups answers.

use slot_views::View;

/// What became of a line of a group.
#[derive(Clone, Copy)]
pub enum GroupOutcome<'a> {
    /// It was added, and more are to come.
    Held,
    /// It completed its group, whose sentences these are, one after the other. The group is closed.
    Complete(View<'a>),
    /// It isn't the first line of a group, nor the next one of an open group with its total. An open group of its key ended.
    Order,
    /// It is the first line of a group whose key has none open, while as many are open as the limit. Nothing changed.
    Full,
}

/// The answer to a line of a group.
#[derive(Clone, Copy)]
pub struct GroupFed<'a> {
    /// A first line came while the group before it was open, which is given up.
    pub restarted: bool,
    pub outcome: GroupOutcome<'a>,
}
