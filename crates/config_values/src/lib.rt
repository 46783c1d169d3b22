//! How a gateway is configured, as values, and exactly when such a configuration is valid.
//!
//! No call takes memory.
#![tactic(auto)]

mod config;
mod endpoint;
mod ends;
pub mod laws;
mod lists;
mod patterns;
mod presets;
mod row_config;
mod selective_config;

pub use config::{Config, Ends};
pub use endpoint::is_endpoint;
pub use row_config::{RowConfig, USUAL_TIMEOUT_MS};
pub use selective_config::SelectiveConfig;
