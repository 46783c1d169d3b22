//! The device that a row is taken from, told where it changes: a part beside the gateway.
//!
//! No call takes memory.
#![tactic(auto)]

pub mod laws;
mod source_watch;

pub use source_watch::{SourceWatch, SourcesPlace};
