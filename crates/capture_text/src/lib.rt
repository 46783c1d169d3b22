//! The text of a capture: what happened on the bus and on the network, line by line, and what a gateway emits.
//!
//! A line is laid out as the log of candump: a time, an interface and a frame. An interface `udp0` carries datagrams
//! of IEC 61162-450, and `tick` says that time passes. What is read is lent from the caller's room; nothing takes
//! memory.
#![tactic(auto)]

mod byte;
mod decimal;
mod hexadecimal;
mod line_rule;
pub mod read_back;
mod reading;
mod time;
mod usual;
mod writing;

pub use gate_events::{Detail, Emit, Event, Report};
pub use line_rule::LineRule;
pub use reading::{LONGEST_LINE, MOST_BYTES, Room, read_line};
pub use usual::usual_frame;
pub use writing::{write_emit, write_event};
