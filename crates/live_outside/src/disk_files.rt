//! The files of the system.
ghost use Rattle.std.specs.Prelude.{◌≡◌, ◌≢◌, None};
ghost use Rattle.std.specs.declared.io.ErrorKind.{ErrorKind};
ghost use Rattle.gate_outside.specs.Files.{Loads};
ghost use Rattle.gate_outside.specs.declared.load_fault.LoadFault.{LoadFault};

use gate_outside::{Files, LARGEST_FILE, LoadFault};
use std::alloc::Global;
use std::fs::File;
use std::io::{ErrorKind, Read};
use std::marker::Model;

/// The files of the system. They tell nothing of their content.
#[derive(Drop)]
pub struct DiskFiles<'a, R> {
    rt: &'a R,
    faults: u64,
    unread: Option<ErrorKind>,
}

impl<'a, R> Model for DiskFiles<'a, R> {
    ghost use Rattle.std.specs.Prelude.{ℕ};

    ghost Value = { ℕ };

    ghost view = { λ f. f.faults };
}

impl<'a, R: std::fs::Files> DiskFiles<'a, R> {
    ghost use Rattle.std.specs.Prelude.{◌≡◌};

    /// The files of a system, with no fault yet.
    pub fn new(rt: &'a R) -> Self
        ensures { result ≡ 0 }
    {
        DiskFiles {
            rt,
            faults: 0,
            unread: None,
        }
    }

    /// Why the last load that gave no bytes gave none, if one did: what the system said, or `FileTooLarge`.
    pub fn unread(&self) -> Option<ErrorKind> {
        self.unread
    }
}

// The fault that an error of the system is.
fn fault_of(kind: ErrorKind) -> LoadFault
    ensures memory { kind ≡ ErrorKind.OutOfMemory → result ≡ LoadFault.Memory }
    ensures failure { kind ≢ ErrorKind.OutOfMemory → result ≡ LoadFault.Failed }
    ensures loaded_short { result ≢ LoadFault.TooLong }
{
    if kind == ErrorKind::OutOfMemory {
        LoadFault::Memory
    } else {
        LoadFault::Failed
    }
}

// All bytes of a reader, where there are at most 1 MiB. Of more, one byte more is read. Where it gives none, why.
fn read_whole<R: Read + Drop>(
    alloc: Global,
    reader: R,
    unread: &mut Option<ErrorKind>,
) -> Result<Vec<u8>, LoadFault>
    ensures { Loads (R.remaining reader) result }
{
    let mut bytes = Vec::new(alloc);
    match reader.take(LARGEST_FILE as u64 + 1).read_to_end(&mut bytes) {
        Ok(_) if bytes.len() > LARGEST_FILE => {
            *unread = Some(ErrorKind::FileTooLarge);
            Err(LoadFault::TooLong)
        }
        Ok(_) => Ok(bytes),
        Err(error) => {
            *unread = Some(error.kind());
            Err(fault_of(error.kind()))
        }
    }
}

// The bytes of the file of a name. Where it gives none, why.
fn read_file<R: std::fs::Files>(
    rt: &R,
    alloc: Global,
    name: &str,
    unread: &mut Option<ErrorKind>,
) -> Result<Vec<u8>, LoadFault>
    ensures { Loads None result }
{
    match File::open(rt, name) {
        Ok(file) => read_whole(alloc, file, unread),
        Err(error) => {
            *unread = Some(error.kind());
            Err(fault_of(error.kind()))
        }
    }
}

impl<'a, R: std::fs::Files> Files for DiskFiles<'a, R> {
    ghost use Rattle.std.specs.Prelude.{None};

    ghost content = { λ _ _. None };

    ghost fault_count = { λ f. f };

    fn faults(&self) -> u64 {
        self.faults
    }

    fn load(&mut self, alloc: Global, name: &str) -> Result<Vec<u8>, LoadFault> {
        let loaded = read_file(self.rt, alloc, name, &mut self.unread);
        if matches!(&loaded, Err(LoadFault::Failed)) {
            self.faults = self.faults.saturating_add(1);
        }
        loaded
    }
}
