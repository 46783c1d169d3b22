//! Rows under watch and heartbeats as one part beside the gateway: a heartbeat tells whether a watched row is silent.
//!
//! No call takes memory.
#![tactic(auto)]

mod supervision;

pub use supervision::{Supervision, SupervisionPlace};
