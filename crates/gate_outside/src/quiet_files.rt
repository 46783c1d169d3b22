//! Files in memory that never fail.
use crate::{Files, LARGEST_FILE, LoadFault};
use std::alloc::Global;
use std::marker::Model;

/// A file in memory, which is that of every name. Loading it never fails but for want of memory.
#[derive(Drop)]
pub struct QuietFiles {
    content: Vec<u8>,
}

impl Model for QuietFiles {
    ghost use Rattle.std.specs.Prelude.{ℕ, List};

    ghost Value = { List ℕ };

    ghost view = { λ f. f.content.items };
}

impl QuietFiles {
    ghost use Rattle.std.specs.Prelude.{◌≡◌, IsTrue};

    /// Files whose every name has this content.
    pub fn of(content: Vec<u8>) -> Self
        ensures { result ≡ content.items }
    {
        QuietFiles { content }
    }

    /// Whether the content is told: always.
    pub fn tells(&self) -> bool
        ensures { IsTrue result }
    {
        true
    }
}

impl Files for QuietFiles {
    ghost use Rattle.std.specs.Prelude.{◌≡◌, Some, false};
    ghost use Rattle.gate_outside.specs.Files.{Loads, HasLoadCause};
    ghost use Rattle.gate_outside.specs.MemFile.{Gives};

    ghost content = { λ f _. Some f };

    ghost fault_count = { λ _. 0 };

    fn faults(&self) -> u64 {
        0
    }

    fn load(&mut self, alloc: Global, _name: &str) -> Result<Vec<u8>, LoadFault>
        ensures bytes { Loads (Some self.old) result }
        ensures kept { self.new ≡ self.old }
        ensures cause { HasLoadCause 0 0 result }
        ensures exact { Gives self.old false result }
    {
        if self.content.len() > LARGEST_FILE {
            return Err(LoadFault::TooLong);
        }
        match Vec::from_slice(alloc, &self.content) {
            Ok(bytes) => Ok(bytes),
            Err(_) => Err(LoadFault::Memory),
        }
    }
}
