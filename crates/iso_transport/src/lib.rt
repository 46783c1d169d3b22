//! The transport protocol of ISO 11783-3: messages of 9 to 1785 bytes, to all or to one node, and the replies that the sender of
//! one to this node waits for.
#![tactic(auto)]

pub mod abort_reason;
mod answers;
mod assembler;
mod connection;
mod key;
mod laws;
mod reply;
mod session;
mod verdict;

pub use answers::{IsoEnded, IsoFed, IsoOutcome, IsoRefusal};
pub use assembler::IsoAssembler;
pub use connection::{Cm, read_cm};
pub use key::IsoKey;
pub use laws::{
    all_sessions_follow_runs, frames_change_their_key_alone, frames_step_with_runs, iso_runs,
    messages_have_their_size, sessions_follow_runs,
};
pub use reply::{Reply, write_reply};
pub use slot_views::View;
