//! The bridge for ships around: position reports of the bus (NMEA 2000 PGN 129038, AIS class A) to the network, as `VDM` sentences with a
//! report of ITU-R M.1371.
//!
//! It acts after each step of the gateway, by what it hears of the bus. No call but [`AisBridge::new`] takes memory.
#![tactic(auto)]

mod bridge;
mod kinds;
mod laws;
mod part;
mod passing;
mod said;
mod writing;

pub use ais_report::{AisFault, AisReport, armour, convert, read_armour};
pub use bridge::{AisBridge, AisEmits};
pub use laws::{commands_leave_the_bridge, open_reports_keep_the_limit, reports_are_sentences};
pub use part::ShipsPlace;
pub use settings::AisConfig;
