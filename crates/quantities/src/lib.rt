//! The further quantities: what a bus says besides the rows, as one table of payloads and one of sentences.
#![tactic(auto)]

mod about;
mod column;
pub mod laws;
mod layout;
mod part;
mod payloads;
mod reading;
mod saying;
mod unit;
mod value;

pub use about::{QUANTITIES, Quantity, all_quantities};
pub use payloads::kind;
pub use reading::read;
pub use saying::{sentence, usable};
pub use value::{MOST_TOLD, Told, VALUES, Value};
