//! The gateway with the parts beside it, as one thing: it takes an event and leaves, in its order, all that goes out: what the gateway
//! itself emits, what each part gives, all sentences once more without headers and TAG blocks, and what the gateway emits at the command
//! that the event completes.
//!
//! No call but [`Bridge::new`] and [`Bridge::with`] takes memory.
#![tactic(auto)]

mod beside;
mod bridge;
mod call_output;
pub mod cases;
pub mod laws;
pub mod net_laws;
mod replaced;

pub use bridge::Bridge;
pub use gate_core::{Command, HeldCounts, moment_of};
pub use settings::{Settings, Setup};
