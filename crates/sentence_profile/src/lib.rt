//! The sentences of IEC 61162-1 as definitions: in which of them each reading is said, and which readings each of them gives.
//!
//! Here are the types that the definitions name, and the laws of what is said and read. What says and reads is `sentence_rows`, so that
//! whoever defines by sentences doesn't wait for it.
#![tactic(auto)]

mod fault;
mod fixed;
mod formatter;
pub mod laws;
mod minimum;
mod optional;
pub mod read_unit;

pub use fault::FieldFault;
pub use fixed::Fixed;
pub use formatter::Formatter;
pub use minimum::Minimum;
pub use optional::OptionalSentences;
pub use read_unit::ReadUnit;
