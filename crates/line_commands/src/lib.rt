//! The commands that answer each line of a capture by itself: `convert`, the sentences of each single-frame message, and `show`, what each
//! line says in plain numbers. Neither knows claims, choice or anything that a line before it said.
//!
//! No call takes memory.
#![tactic(auto)]

mod convert;
mod line_command;
mod line_text;
mod show;

pub use line_command::answer_lines;
