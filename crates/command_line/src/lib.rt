//! The command line: which command its words are, with its file and its numbers, or that they are none; and the status that a command ends with.
//!
//! No call takes memory.
#![tactic(auto)]

mod numerals;
mod statuses;
mod words;

pub use numerals::number_between;
pub use statuses::{Status, status_of};
pub use words::{Command, LineCommand, MOST_EVENTS, MOST_SEED, MOST_TURNS, USAGE, command_of};
