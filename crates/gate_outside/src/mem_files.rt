//! Files in memory that fail at the loads that they are told to.
use crate::failures::Failures;
use crate::{Files, LoadFault, QuietFiles};
use std::alloc::Global;
use std::marker::Model;

/// A file in memory, which is that of every name. It always tells its content.
#[derive(Drop)]
pub struct MemFiles {
    files: QuietFiles,
    failures: Failures,
}

impl Model for MemFiles {
    ghost use Rattle.gate_outside.specs.MemFile.{MemFile};

    ghost Value = { MemFile };

    ghost view = { λ f. record { content = f.files; script = f.failures } };
}

impl MemFiles {
    ghost use Rattle.std.specs.Prelude.{◌≡◌, IsTrue};

    /// Files whose every name has this content. The loads whose numbers stand in `failing`, counted
    /// from 1, fail.
    pub fn of(content: Vec<u8>, failing: Vec<u32>) -> Self
        ensures { result ≡ record {
          content = content.items;
          script = record { failing = failing.items; calls = 0; faults = 0 };
        } }
    {
        MemFiles {
            files: QuietFiles::of(content),
            failures: Failures::at(failing),
        }
    }

    /// Whether the content is told: always.
    pub fn tells(&self) -> bool
        ensures { IsTrue result }
    {
        true
    }
}

impl Files for MemFiles {
    ghost use Rattle.std.specs.Prelude.{◌≡◌, Some};
    ghost use Rattle.gate_outside.specs.Files.{Loads, HasLoadCause};
    ghost use Rattle.gate_outside.specs.MemFile.{LoadsMemory};

    ghost content = { λ f _. Some f.content };

    ghost fault_count = { λ f. f.script.faults };

    fn faults(&self) -> u64 {
        self.failures.faults()
    }

    #[tactic(auto, using(crate::proofs::Numbered::loads_as))]
    fn load(&mut self, alloc: Global, name: &str) -> Result<Vec<u8>, LoadFault>
        ensures bytes { Loads (Some self.old.content) result }
        ensures kept { self.new.content ≡ self.old.content }
        ensures cause { HasLoadCause self.old.script.faults self.new.script.faults result }
        ensures exact { LoadsMemory self.old self.new result }
    {
        let failed = self.failures.is_next();
        self.failures.count(failed);
        if failed {
            return Err(LoadFault::Failed);
        }
        self.files.load(alloc, name)
    }
}
