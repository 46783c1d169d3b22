//! The bytes that a program reads.
ghost use Rattle.std.specs.Prelude.{◌≡◌, ◌≤◌, ℕ, List, Option, length, IfOk};
ghost use Rattle.gate_outside.specs.Faults.{HasCause};
ghost use Rattle.gate_outside.specs.Source.{Reads, TellsEnd};

use crate::Failed;

/// An input of bytes, such as standard input.
pub trait Source {
    /// The bytes that are left, where they are told.
    ghost left: { Self → Option (List ℕ) };

    /// How often a read failed. It stops at its last value.
    ghost fault_count: { Self → ℕ };

    /// How often a read failed, up to the last value of the count. It never falls.
    fn faults(&self) -> u64
        ensures { result ≡ fault_count self.now };

    /// Takes the next bytes into the front of the buffer, and answers how many. A count of 0 for a
    /// buffer that isn't empty is the end of the input. After `Failed` nothing was taken.
    fn read(&mut self, buf: &mut [u8]) -> Result<usize, Failed>
        ensures bound { IfOk result (λ count. count ≤ length buf.new) }
        ensures bytes { Reads (left self.old) (left self.new) buf.new result }
        ensures end { TellsEnd (left self.old) buf.new result }
        ensures cause { HasCause (fault_count self.old) (fault_count self.new) result };
}
