//! The gateway over a large made-up input, which a seed and a number of events give, and one line that sums up what it emits: a run that
//! anyone can repeat, and that needs no bus.
//!
//! No call but [`demo_line`] takes memory, and that one only to open the gateway.
#![tactic(auto)]

mod frames;
mod input;
mod numbers;
mod running;
mod setup;
mod summary;
mod tally;
mod turns;

pub use summary::{Summary, demo_line};
