//! The gateway: what it does at each event, and what it leaves to be sent and reported.
#![tactic(auto)]

mod addresses;
mod gateway;
pub mod laws;
mod selected_message;
mod state;

pub use config_values::{Config, Ends, RowConfig};
pub use gate_outbox::{Command, Done, Outbox};
pub use gateway::{Gateway, HeldCounts};
pub use selected_message::SelectedMessage;
pub use state::moment_of;
