//! The bytes that a program writes.
ghost use Rattle.std.specs.Prelude.{◌≡◌, ◌<◌, ◌≤◌, ℕ, List, Option, length, IfOk};
ghost use Rattle.gate_outside.specs.Faults.{HasCause};
ghost use Rattle.gate_outside.specs.Sink.{Writes};

use crate::Failed;

/// An output of bytes, such as standard output.
pub trait Sink {
    /// The bytes that were taken, where they are told. Once untold, they are never told again.
    ghost taken: { Self → Option (List ℕ) };

    /// How often a write failed. It stops at its last value.
    ghost fault_count: { Self → ℕ };

    /// How often a write failed, up to the last value of the count. It never falls.
    fn faults(&self) -> u64
        ensures { result ≡ fault_count self.now };

    /// Takes some first bytes of the piece, and answers how many: at least one where the piece isn't
    /// empty. After `Failed` none was taken.
    fn write(&mut self, piece: &[u8]) -> Result<usize, Failed>
        ensures bound { IfOk result (λ count. count ≤ length piece.now) }
        ensures some { 0 < length piece.now → IfOk result (λ count. 0 < count) }
        ensures bytes { Writes (taken self.old) (taken self.new) piece.now result }
        ensures cause { HasCause (fault_count self.old) (fault_count self.new) result };
}
