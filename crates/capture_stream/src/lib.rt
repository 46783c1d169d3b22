//! A capture in, a text out: a command's input is cut into lines within fixed memory, each line is answered, and the answers are gathered
//! so that many short ones cost one call.
//!
//! No call takes memory.
#![tactic(auto)]

mod answering;
mod ending;
mod line_reader;
mod streaming;
mod writer;

pub use answering::Answers;
pub use ending::Ending;
pub use streaming::answer_capture;
pub use writer::{Writer, send_now};
