//! All that one file configures, as values: the gateway, and the parts beside it.
//!
//! No call but [`QuantityConfigs::new`] takes memory.
#![tactic(auto)]

mod ais;
mod heading;
mod heartbeat;
mod nav;
mod quantity_config;
mod quantity_configs;
mod rmc;
mod settings;
mod setup;
mod watch;

pub use ais::AisConfig;
pub use heading::HeadingConfig;
pub use heartbeat::{HeartbeatConfig, NetHeartbeat};
pub use nav::NavConfig;
pub use quantity_config::{Quantities, QuantityConfig};
pub use quantity_configs::QuantityConfigs;
pub use rmc::RmcConfig;
pub use settings::Settings;
pub use setup::Setup;
pub use watch::{AlertConfig, WatchConfig};
