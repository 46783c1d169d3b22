//! Position reports of ships (AIS): from NMEA 2000 PGN 129038 to the bits of ITU-R M.1371, and these bits as the text of a sentence.
//!
//! No call takes memory.
#![tactic(auto)]

mod bits;
mod characters;
mod conversion;
mod field;
mod quantity;
mod report;

pub use characters::{armour, read_armour};
pub use conversion::convert;
pub use report::{AisFault, AisReport};
