//! The configuration of a boat, read from one TOML file: valid settings, or the first thing that is wrong.
#![tactic(auto)]

mod all;
mod devices;
mod endpoint;
mod further;
mod further_quantities;
mod gateway;
mod heading;
mod heartbeat;
mod identity;
mod items;
mod keys;
pub mod laws;
mod links;
mod nav;
mod parts;
mod presets;
mod quantity;
mod reading;
mod routes;
mod rows;
mod unknown;
mod watch;
mod words;

pub use bus_identity::Product;
pub use config_document::{ConfigFault, FaultLine, Key};
pub use config_values::{Config, Ends, RowConfig};
pub use reading::{read, read_all, read_whole};
pub use settings::{
    AisConfig, AlertConfig, HeartbeatConfig, NavConfig, NetHeartbeat, Quantities, QuantityConfig,
    QuantityConfigs, RmcConfig, Settings, Setup, WatchConfig,
};
