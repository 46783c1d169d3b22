//! The files that a program loads.
ghost use Rattle.std.specs.Prelude.{◌≡◌, ℕ, List, Option, IsErrOf};
ghost use Rattle.gate_outside.specs.declared.load_fault.LoadFault.TheVariants.{Failed};
ghost use Rattle.gate_outside.specs.Files.{Loads, HasLoadCause};

use crate::LoadFault;
use std::alloc::Global;

/// The most bytes of a file that is loaded: 1 MiB.
pub const LARGEST_FILE: usize = 1 << 20;

/// The files of a system, by name.
pub trait Files {
    /// The bytes of the file of a name, where they are told.
    ghost content: { Self → List ℕ → Option (List ℕ) };

    /// How often a load failed. It stops at its last value.
    ghost fault_count: { Self → ℕ };

    /// How often a load failed, up to the last value of the count. It never falls.
    fn faults(&self) -> u64
        ensures { result ≡ fault_count self.now };

    /// The bytes of the file of this name, of which there are at most 1 MiB.
    fn load(&mut self, alloc: Global, name: &str) -> Result<Vec<u8>, LoadFault>
        ensures bytes { Loads (content self.old name.now) result }
        ensures kept { content self.new ≡ content self.old }
        ensures cause { HasLoadCause (fault_count self.old) (fault_count self.new) result };
}
