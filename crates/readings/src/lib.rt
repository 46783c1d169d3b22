//! What one message says, as raw values: the rows of the profile, the reading of each row, and the
//! numbers in a payload's bytes.
//!
//! A raw value is the whole number that stands in an NMEA 2000 field, in the field's own unit. It is
//! never rounded itself: rounded is what a sentence prints of it, and what is read of a sentence's
//! decimal.
#![tactic(auto)]

mod number;
pub mod range;
mod reading;
mod rows;

pub use number::{bits, read_signed, read_unsigned};
pub use range::Range;
pub use reading::{Reading, row, usable, valid};
pub use rows::{ROWS, Row, all_rows};
