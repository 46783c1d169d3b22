//! How a command over an input ends.

/// How a command that reads an input and writes its text ends.
#[derive(Clone, Copy)]
pub enum Ending {
    /// The input was read to its end.
    Done,
    /// A write failed.
    SinkFailed,
    /// A read failed.
    SourceFailed,
    /// More was read than an input may have.
    TooLong,
}
