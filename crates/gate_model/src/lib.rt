//! What the gateway keeps, as plain values, and that it stands for all that ever came.
#![tactic(auto)]

pub mod addresses;
pub mod choices;
pub mod fast_packets;
pub mod keys;
pub mod network;
pub mod said;
mod sessions;
pub mod stands;

pub use sessions::{
    answers_tell_moves, frames_step_sessions, kept_sessions_stand_for_all_histories,
    no_session_stands_for_no_history, other_entries_leave_sessions,
    sessions_end_with_their_addresses, time_ends_sessions,
};
