//! What a frame of the bus is to the gateway, the message that it completes, and the messages that end before they are complete.
#![tactic(auto)]

pub mod endings;
pub mod fast;
pub mod meanings;
pub mod messages;
pub mod sessions;
