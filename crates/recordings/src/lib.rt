//! What is recorded of a run gives, when it is replayed, what the gateway made in that run, and is told from the reports that are written beside it.
//! It needs no tick at which nothing was emitted: such a tick changes nothing.
#![tactic(auto)]

mod laws;

pub use laws::{
    idle_ticks_change_nothing, recorded_runs_replay, recordings_are_told,
    recordings_need_no_idle_ticks, recordings_replay,
};
