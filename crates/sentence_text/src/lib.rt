//! Sentences of IEC 61162-1, read and written, and the names that IEC 61162-450 puts beside them.
//!
//! A sentence is `$` or `!`, an address of a talker and a formatter, fields behind commas, `*`, a sum of two
//! hexadecimal digits, CR and LF. What is read is lent from the line; nothing takes memory.
//!
//! A TAG block has the same bytes and sums: what reads and writes those is lent to the crates above.
#![tactic(auto)]

mod byte;
mod fault;
mod group;
mod reading;
mod sentence;
mod sfi;
mod sum;
mod writing;

pub use byte::{all_digits, byte_at};
pub use fault::{SentenceFault, SentenceRule};
pub use group::Group;
pub use reading::read;
pub use sentence::Sentence;
pub use sfi::Sfi;
pub use sum::{SumFault, sum_digits, sum_fault, xor};
pub use writing::{begin, end, write};
