//! The configuration of a command: loaded from its file, or why there is none; and `check`, which says no more than that.
#![tactic(auto)]

mod checking;
mod configuring;

pub use checking::check;
pub use configuring::{Unconfigured, give_up, load_whole};
