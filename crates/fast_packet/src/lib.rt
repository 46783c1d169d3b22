//! Fast packet: messages of up to 223 bytes in frames of 8.
#![tactic(auto)]

mod answers;
mod assembler;
mod frames;
mod key;
mod laws;
mod splitting;
mod verdict;

pub use answers::{FastFed, FastOutcome, FastRefusal};
pub use assembler::{FastAssembler, GAP};
pub use key::FastKey;
pub use laws::{
    assembly_is_open_prefix, fast_runs, frames_change_their_key_alone, frames_step_with_runs,
    keys_follow_runs, split_is_a_run,
};
pub use slot_views::View;
pub use splitting::{FrameList, split};
