//! What a part beside the gateway hears of the bus: messages of some parameter groups, single frames and fast packets, of devices that hold
//! their address.
//!
//! It acts after each step of the gateway, and asks it who holds an address, and which addresses changed hands. No call but
//! [`BusListener::new`] takes memory.
#![tactic(auto)]

mod hearing;
mod kinds;
mod laws;
mod listener;
mod message;
mod noting;
mod passing;

pub use gate_core::Gateway;
pub use kinds::{Kinds, is_told, may_complete};
pub use laws::{commands_leave_the_listener, open_messages_keep_the_limit};
pub use listener::BusListener;
pub use message::HeardMessage;
pub use noting::{forget_changed, has_place};
pub use pgn_profile::Kind;
