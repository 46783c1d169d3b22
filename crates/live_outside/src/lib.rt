//! The outside of a program that runs: files of the system, a stream that is written, two UDP links, and the
//! system's clock.
//!
//! These adapters tell nothing of content, since no clause of std says what a file or a socket gave. Each
//! is proved against its trait: it fails only where its count of faults rose, and its answers fit what it
//! was handed. What moves is shown by tests.
#![tactic(auto)]

mod activity;
mod destinations;
mod disk_files;
mod socket;
mod system_clock;
mod told_writer;
mod udp_link;

pub use activity::Activity;
pub use disk_files::DiskFiles;
pub use socket::Failure;
pub use system_clock::SystemClock;
pub use told_writer::ToldWriter;
pub use udp_link::{UdpLink, Unattached};
