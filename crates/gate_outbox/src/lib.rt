//! What a step of the gateway leaves: frames and reports in their order, at most one datagram, and the message that it completes.
#![tactic(auto)]

mod datagram;
mod done;
mod emits;
pub mod frames;
mod kept;
mod kept_list;
mod outbox;
pub mod reports;

pub use datagram::Datagram;
pub use done::{Command, Done};
pub use emits::{Emits, MOST_DATAGRAMS};
pub use outbox::{MOST_TOLD, Outbox, StepEmits};
