//! What happens on the bus and on the network, and what a gateway emits.
#![tactic(auto)]

mod emit;
mod event;

pub use emit::{Detail, Emit, Report};
pub use event::Event;
