//! What a configuration file (TOML) is read by: its tables with the paths of their keys, the kinds of values that stand there, and the
//! faults that they can have, each with its line.
//!
//! Only `least_unknown` takes memory, for the path of a key that isn't known.
#![tactic(auto)]

mod fault;
mod pattern;
mod section;
mod texts;
mod twice;
mod unknown;
mod values;
mod written;

pub use fault::{ConfigFault, FaultLine, Flaw, Key, key_of};
pub use section::Section;
pub use texts::{ProductText, Talker};
pub use twice::repeats;
pub use unknown::least_unknown;
pub use written::Written;
