//! The fields of a sentence of IEC 61162-1, and what is written of them.
//!
//! A raw value is scaled once, by one fraction, to a whole number of the last decimals that are printed.
#![tactic(auto)]

mod field;
mod letter;
mod lines;
pub mod written_unit;

pub use field::Field;
pub use letter::letter_where;
pub use lines::{Lines, SentenceText, append, write_sentence};
