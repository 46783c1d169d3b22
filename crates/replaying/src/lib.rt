//! A bridge over a capture: the line of each emit at its moment, and a report for each line that breaks a rule.
//!
//! No call takes memory.
#![tactic(auto)]

pub mod cases;
pub mod laws;
mod replay;
mod sending;

pub use replay::replay_capture;
