//! Whose values count: of the sources of a subject, the best one that is fresh.
//!
//! Whatever several sources may say is a subject, and goes by a number. What each source said last of each subject is noted: when, with
//! which rank, and whether it says anything. A message is selected where no other source of a smaller rank has said something usable
//! within the subject's timeout. All memory is taken when the choice is made.
#![tactic(auto)]

mod choice;
pub mod laws;
mod note;
mod rank;
mod ranking;
mod subject_notes;
mod told;

pub use choice::Choice;
pub use rank::Rank;
pub use ranking::rank_of;
pub use told::Told;
