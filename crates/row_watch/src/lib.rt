//! Rows under watch: a row that has to be said and isn't is told by a report and by an alert on the network, and so is its return.
//!
//! No call takes memory.
#![tactic(auto)]

mod alert;
mod alerts;
pub mod laws;
mod row_watch;
mod watched_row;

pub use alerts::Alerts;
pub use row_watch::RowWatch;
