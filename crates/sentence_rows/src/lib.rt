//! The sentences of IEC 61162-1 in which each reading is said, and the readings of each sentence.
//!
//! Each sentence stands in a module of its own, with its layout and an example on top. A raw value is
//! scaled once, by one fraction, to a whole number of the last decimals that are printed.
#![tactic(auto)]

mod clock;
mod column;
mod dbt;
mod digits;
mod dpt;
mod fix;
mod gga;
mod gll;
mod hdg;
mod hdt;
mod letter;
mod mtw;
mod mwd;
mod mwv;
mod number;
mod position;
mod reading;
mod rmc;
mod rot;
mod rsa;
mod ths;
mod vhw;
mod vlw;
mod vtg;
mod writing;
mod xte;
mod zda;

pub use reading::{Readings, read_rows, read_rows_with};
pub use rmc::write_rmc;
pub use sentence_profile::{FieldFault, Minimum, OptionalSentences, laws};
pub use writing::sentences;
