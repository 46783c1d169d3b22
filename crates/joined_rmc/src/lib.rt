//! RMC (IEC 61162-1), one sentence that joins what several rows say: time and date, position, speed and course, and variation. It is
//! said at each message that says the position and is selected.
//!
//! No call takes memory.
#![tactic(auto)]

mod joining;
mod last_of_row;
pub mod laws;
mod minimum;
mod rmc_join;

pub use joining::{Joining, RmcPlace};
pub use last_of_row::LastOfRow;
pub use rmc_join::RmcJoin;
pub use settings::RmcConfig;
