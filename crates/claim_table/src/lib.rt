//! Who holds which address of the bus, and which is the gateway's own: address claim of ISO 11783-5.
#![tactic(auto)]

mod answer;
mod claiming;
mod fault;
pub mod laws;
mod preset;

pub use answer::{ClaimStep, Holder, OwnAnswer};
pub use claiming::{ClaimTable, MOVE_PLACES};
pub use fault::ClaimFault;
pub use preset::Preset;
