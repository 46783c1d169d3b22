//! What a step completes.

use n2k_id::Name;
use readings::Reading;

/// A message that is complete, with what it says where it is of a row of the profile and long enough.
#[derive(Clone, Copy)]
pub struct Done {
    pub source: u8,
    /// The NAME that holds the source.
    pub name: Name,
    pub pgn: u32,
    pub reading: Option<Reading>,
}

/// A device tells the gateway to go to an address (ISO 11783-5, commanded address).
#[derive(Clone, Copy)]
pub struct Command {
    pub source: u8,
    pub address: u8,
}
