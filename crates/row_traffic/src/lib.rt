//! The readings between bus and network: what is said of them on the network, and what is heard there and sent to the bus.
#![tactic(auto)]

pub mod network;
pub mod rows;
pub mod said;
mod sending;
