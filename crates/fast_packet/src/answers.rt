//! What the assembler answers.

use slot_views::View;

/// Why a frame was refused.
#[derive(Clone, Copy)]
pub enum FastRefusal {
    /// A later frame of another sequence, or not the next one. The assembly ended.
    Order,
    /// A later frame whose message isn't open.
    Orphan,
    /// No byte, a length of 0 or above 223, or fewer bytes than the frame owes. An open assembly ended.
    Length,
    /// A frame 0 whose key has no assembly open, while as many are open as the limit. Nothing changed.
    Full,
}

/// What became of a frame.
#[derive(Clone, Copy)]
pub enum FastOutcome<'a> {
    /// It was added, and more are to come.
    Held,
    /// It completed this message, whose assembly is closed.
    Complete(View<'a>),
    /// It is the last frame again, as some adapters send it. Nothing changed.
    Repeat,
    /// It was refused.
    Refused(FastRefusal),
}

/// The answer to a frame.
#[derive(Clone, Copy)]
pub struct FastFed<'a> {
    /// A frame 0 came while the message before it was open, which is given up.
    pub restarted: bool,
    pub outcome: FastOutcome<'a>,
}
