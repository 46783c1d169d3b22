//! What lies outside the program: its input and its output, files, links and the time.
//!
//! Each kind of outside is a trait. It says what a call does to the content, wherever the object
//! tells its content, and it counts its faults: a call may fail only where that count rises. So a
//! program over these traits can be held to its definition by what it read and wrote, and a failure
//! by its count.
//!
//! The memory forms fail at the calls that they are told to, and the quiet forms never do. Both tell
//! their content, an output or a link for as long as it is within the room that it was made with.
//! The adapters over a reader and a writer of std tell what std tells of these.
#![tactic(auto)]

mod attached;
mod clock;
mod failures;
mod files;
mod handover;
mod incoming;
mod link;
mod load_fault;
mod mem_clock;
mod mem_files;
mod mem_link;
mod mem_sink;
mod mem_source;
mod quiet_files;
mod quiet_link;
mod quiet_sink;
mod quiet_source;
mod record;
mod sink;
mod source;
mod streams;
mod supply;

pub use clock::Clock;
pub use files::{Files, LARGEST_FILE};
pub use link::{Arrival, LARGEST_ARRIVAL, Link};
pub use load_fault::LoadFault;
pub use mem_clock::MemClock;
pub use mem_files::MemFiles;
pub use mem_link::MemLink;
pub use mem_sink::MemSink;
pub use mem_source::MemSource;
pub use network_routes::{Address, Route, Routes};
pub use quiet_files::QuietFiles;
pub use quiet_link::QuietLink;
pub use quiet_sink::QuietSink;
pub use quiet_source::QuietSource;
pub use sink::Sink;
pub use source::Source;
pub use streams::{ReaderSource, WriterSink};

/// A call failed. It is answered only where the object's count of faults rose in that call.
#[derive(Clone, Copy, Debug, PartialEq, Eq)]
pub struct Failed;
