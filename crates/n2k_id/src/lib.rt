//! What an NMEA 2000 bus names: CAN frames, the parts of their 29-bit identifiers (ISO 11783-3), and
//! the NAMEs of devices (ISO 11783-5).
#![tactic(auto)]

pub mod address;
mod frame;
mod identifier;
mod identifier_parts;
mod name;
mod pattern;
pub mod pgn;

pub use frame::Frame;
pub use identifier::{join, parts};
pub use identifier_parts::Parts;
pub use name::{Name, NameFields, read_name, write_name};
pub use pattern::Pattern;
