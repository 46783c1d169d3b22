//! Exact conversion between units: whole numbers times a fraction, and decimals as text.
//!
//! Nothing here rounds twice and nothing is a float: a raw value is multiplied by one fraction of whole
//! numbers and becomes the nearest whole number, once.
#![tactic(auto)]

mod backward;
mod decimal;
mod fraction;
mod laws;
mod reading;
mod writing;

pub use decimal::{Decimal, DecimalFault};
pub use fraction::{Fraction, scale, scale_decimal};
pub use laws::{there_and_back, written_is_read};
pub use reading::read_decimal;
pub use writing::write_decimal;
