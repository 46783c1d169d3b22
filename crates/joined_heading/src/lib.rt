//! Joined headings (IEC 61162-1, HDG, HDM and HDT): a magnetic heading that the gateway selects, with its own variation or the one of PGN 127258, and
//! the true heading that these make. None is computed while one is measured.
//!
//! No call but [`JoinedHeading::new`] takes memory.
#![tactic(auto)]

mod hearing;
mod joined_heading;
mod kinds;
pub mod laws;
mod magnetic;
mod part;
mod said;
mod saying;
mod writing;

pub use joined_heading::{HeadingEmits, JoinedHeading};
pub use part::HeadingPlace;
pub use settings::HeadingConfig;
