//! The gateway's answers to who asks on the bus who it is: a part beside the gateway, which is always there.
//!
//! No call takes memory.
#![tactic(auto)]

mod answering;

pub use answering::{Answering, AnswersPlace};
