//! A device is isolated: which of its messages are complete depends on the claims and on its own frames alone, whatever else is on the bus.
#![tactic(auto)]

pub mod laws;
mod running;

pub use running::FrameEvent;
