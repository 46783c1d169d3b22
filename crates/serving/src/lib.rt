//! The gateway between two links that live: turn by turn it takes what has come by each, and hands on all that goes out.
//!
//! No call takes memory.
#![tactic(auto)]

mod arrival;
pub mod cases;
mod handing;
mod recording;
mod turns;

pub use bridge::{Bridge, Settings, Setup};
pub use turns::{serve_turns, take_turns};
