//! The gateway's own address, told where it changes: a gateway that moves, or has no address any more, says so.
//!
//! No call takes memory.
#![tactic(auto)]

mod own_address;

pub use own_address::{AddressPlace, OwnAddress};
