//! What a gateway says in datagrams of IEC 61162-450, once more as plain sentences: programs that read NMEA 0183 over UDP know neither their
//! header nor their TAG blocks.
//!
//! No call but [`Voice::new`] takes memory.
#![tactic(auto)]

pub mod laws;
mod places;
mod sentences;
mod stream;
mod voice;

pub use sentences::{PlainEmits, push_sentences, say_plain};
pub use stream::Stream;
pub use voice::Voice;
