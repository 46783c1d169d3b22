//! A link to the other devices: the bus or the Ethernet.
ghost use Rattle.std.specs.Prelude.{◌≡◌, ◌≤◌, ℕ, Option, length};
ghost use Rattle.gate_outside.specs.Faults.{HasCause};
ghost use Rattle.gate_outside.specs.Link.{longest_address, Traffic, Attaches, Receives, Fits, Sends};

use crate::{Failed, Routes};
use sentence_text::Group;

/// How many bytes the buffer of a receive has.
pub const LARGEST_ARRIVAL: usize = 1_500;

/// What a receive gave.
#[derive(Clone, Copy, PartialEq, Eq)]
pub enum Arrival {
    /// So many bytes, at the front of the buffer.
    Bytes(usize),
    /// Nothing has come.
    Nothing,
}

/// A link that takes and gives messages whole.
pub trait Link {
    /// What the link tells. Once untold, it is never told again.
    ghost traffic: { Self → Option Traffic };

    /// How often a call failed. It stops at its last value.
    ghost fault_count: { Self → ℕ };

    /// How often a call failed, up to the last value of the count. It never falls.
    fn faults(&self) -> u64
        ensures { result ≡ fault_count self.now };

    /// Makes the link usable: it listens at an address, and sends by these routes.
    fn attach(&mut self, listen: &[u8], routes: &Routes) -> Result<(), Failed>
        requires { length listen.now ≤ longest_address }
        ensures told { Attaches listen.now routes.now (traffic self.old) (traffic self.new) result }
        ensures cause { HasCause (fault_count self.old) (fault_count self.new) result };

    /// Gives the next arrival, at the front of the buffer, if one has come.
    fn receive(&mut self, buf: &mut [u8; LARGEST_ARRIVAL]) -> Result<Arrival, Failed>
        ensures fits { Fits buf.new result }
        ensures told { Receives buf.new (traffic self.old) (traffic self.new) result }
        ensures cause { HasCause (fault_count self.old) (fault_count self.new) result };

    /// Hands some bytes over under a group.
    fn send(&mut self, group: Group, bytes: &[u8]) -> Result<(), Failed>
        ensures told { Sends (group, bytes.now) (traffic self.old) (traffic self.new) result }
        ensures cause { HasCause (fault_count self.old) (fault_count self.new) result };
}
