//! The messages of the profile: a payload as a reading, and a reading as a payload.
//!
//! The fields of each message are laid out after canboat's public tables; ranges, selectors and least
//! lengths are this gateway's profile. How a message is read stands in the module of its kind, and in
//! `messages` which one it is and how each reading is written.
#![tactic(auto)]

mod field;
mod heading;
mod kinds;
mod messages;
mod piece;
mod position;
mod profiled;
mod steering;
mod time;
mod water;
mod wind;

pub use field::{signed, unsigned};
pub use kinds::Kind;
pub use messages::{kind, priority, read, read_in_place, write};
pub use piece::Payload;
pub use profiled::Profiled;
