//! What standard error says of a run. Of one that didn't do its work: why, and where words are no command, what the commands are. Of `serve` while it
//! goes on: which program it is and where it listens and sends, which sends and receives fail and until when, whom the gateway doesn't hear, and at
//! its end why and how much came.
//!
//! What a process says there no clause of std tells: clauses have the words for why, and the examples compare the lines. The wrappers here pass on
//! each call to what they wrap, and keep its contract; of each kind of line at most one a second is said, and at most a hundred in a run, so a
//! journal that nobody reads stops nothing.
#![tactic(auto)]

mod begin;
mod failed_run;
mod line;
mod link_notes;
mod noted_clock;
mod noted_files;
mod noted_link;
mod noted_writer;
mod pace;
mod processor;
mod reasons;
mod sends;
mod shared;
mod trouble;
mod unattached;
mod unlisted;
mod why;
mod words;

pub use failed_run::{Kept, explain_run};
pub use noted_clock::NotedClock;
pub use noted_files::NotedFiles;
pub use noted_link::NotedLink;
pub use noted_writer::NotedWriter;
pub use shared::{Shared, Side};
