//! Further quantities: what a bus says besides the rows, such as engines, batteries, tanks and the weather, said on the network of the best
//! device that says it.
//!
//! It acts after each step of the gateway, and asks it who holds an address, and which addresses changed hands. No call but
//! [`FurtherBridge::new`] takes memory.
#![tactic(auto)]

mod bridge;
mod config;
mod kinds;
mod laws;
mod part;
mod said;
mod saying;
mod water;
mod writing;

pub use bridge::{FurtherBridge, FurtherEmits, ValueEmits};
pub use laws::commands_leave_further_quantities;
pub use part::QuantitiesPlace;
pub use settings::Quantities;
