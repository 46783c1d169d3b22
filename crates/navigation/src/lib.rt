//! Steering by a plotter of the bus (IEC 61162-1, RMB, APB and XTE): a leg by PGN 129284, with the cross track error of PGN 129283 that the same device said on
//! the same leg.
//!
//! No call but [`Navigation::new`] takes memory.
#![tactic(auto)]

mod course;
mod hearing;
mod kinds;
pub mod laws;
mod leg;
mod navigation;
mod part;
mod said;
mod saying;
mod writing;

pub use navigation::{NavEmits, Navigation};
pub use part::NavPlace;
pub use settings::NavConfig;
