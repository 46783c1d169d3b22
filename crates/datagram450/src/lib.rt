//! Datagrams of IEC 61162-450, read and written line by line.
//!
//! A datagram is the header `UdPbC` and NUL, and lines of TAG blocks and a sentence. Each line is given with what it
//! says, or with the first rule that it breaks and the place. What is read is lent from the datagram; nothing takes
//! memory.
#![tactic(auto)]

mod fault;
mod header;
mod item;
mod line_iter;
mod writing;

pub use fault::DatagramFault;
pub use item::LineItem;
pub use line_iter::{LONGEST_DATAGRAM, LineIter, lines, text_run};
pub use writing::{begin, push_line, write_sentence};
