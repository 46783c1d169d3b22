//! Heartbeats, by which who listens tells a silent boat from a gateway that is gone: HBT on the network (IEC 61162-1), and PGN 126993 on the bus.
//!
//! They go by moments alone. No call takes memory.
#![tactic(auto)]

mod bus_beats;
mod due;
mod heartbeats;
pub mod laws;
mod net_beats;

pub use heartbeats::{BeatPlace, Heartbeats};
