//! The lines of a part's datagram (IEC 61162-450): each has a TAG block with the source and the line's count, belongs to no group of lines, and ends with a
//! sentence (IEC 61162-1).
//!
//! No call takes memory.
#![tactic(auto)]

mod writing;

pub use writing::{append_line, append_where};
