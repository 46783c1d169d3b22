//! The commands that run a gateway, and the top call: [`run`] takes the words of the command line and the outside as traits, and its contract
//! says what each status means for the bytes that were read and written. [`run_with`] makes it over the words that a process was started with.
#![tactic(auto)]

mod demo_command;
pub mod laws;
mod process_run;
mod replay;
mod replay_command;
mod serve_command;
mod top_call;

pub use command_line::{Command, LineCommand};
pub use demo_command::demo_with;
pub use process_run::{run_with, words_to_tell};
pub use replay::{replay_with, stream};
pub use serving::{Bridge, Settings, serve_turns};
pub use top_call::run;
