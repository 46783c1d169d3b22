//! Keyed slots, each holding one message in the making, which lend the finished bytes where they lie.
//!
//! `Slots` is a map from key to entry with a limit. All its memory is reserved when it is made: each entry has a buffer for the
//! longest message, and a finished message is lent from that buffer without a copy.
#![tactic(auto)]

mod answers;
mod buffers;
mod growth;
mod laws;
mod opening;
mod place;
mod runs;
mod shelf;
mod slot;
mod slots;

pub use answers::{Begun, Ended, Grown, Kept, View};
pub use laws::{entries_end_one_by_one, first_entry_ends, keys_stand_apart};
pub use place::Place;
pub use runs::{one_step, one_suffix};
pub use slots::Slots;
