//! Who the gateway is: its answers to those on the bus who ask for product information or for the lists of the parameter groups
//! that it sends and takes in (NMEA 2000 PGNs 126996 and 126464), and its refusal of all else that it alone is asked for
//! (ISO 11783-3, acknowledgement).
//!
//! No call takes memory.
#![tactic(auto)]

mod identity;
pub mod laws;
mod lists;
mod pgn;
mod product;
mod request;
mod sending;

pub use identity::{Answered, Identity};
pub use product::Product;
pub use sending::Frames;
