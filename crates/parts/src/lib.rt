//! Parts beside the gateway, in one form: what each keeps, what it gives at an event that the gateway took, and how several are put together.
//!
//! No call but [`Parts::made`] and [`Part::opened`] takes memory.
#![tactic(auto)]

mod both;
mod given;
mod lane;
mod nothing;
mod part;
mod parts;
mod place;
mod seldom;
mod streamed;

pub use gate_core::{Gateway, Outbox, SelectedMessage, moment_of};
pub use given::Given;
pub use lane::Lane;
pub use part::{Part, Step};
pub use parts::Parts;
pub use place::Place;
pub use plain_out::{Stream, Voice};
pub use seldom::Seldom;
pub use streamed::Streamed;
