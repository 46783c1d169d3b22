//! The files of a run that is told.
use crate::shared::Shared;
use gate_outside::{Files, LoadFault};
use live_outside::DiskFiles;
use std::alloc::Global;

/// The files of the system, of which the name of the last one that was asked for is kept.
#[derive(Drop)]
pub struct NotedFiles<'a, R> {
    files: DiskFiles<'a, R>,
    shared: &'a Shared,
}

impl<'a, R: std::fs::Files> NotedFiles<'a, R> {
    /// The files, of which none was asked for yet.
    pub fn new(files: DiskFiles<'a, R>, shared: &'a Shared) -> Self {
        NotedFiles { files, shared }
    }

    /// The files themselves.
    pub fn files(&self) -> &DiskFiles<'a, R> {
        &self.files
    }
}

impl<'a, R: std::fs::Files> Files for NotedFiles<'a, R> {
    ghost use Rattle.std.specs.Prelude.{None};

    ghost content = { λ _ _. None };

    ghost fault_count = { λ f. f.files };

    fn faults(&self) -> u64 {
        self.files.faults()
    }

    fn load(&mut self, alloc: Global, name: &str) -> Result<Vec<u8>, LoadFault> {
        match String::from_str(alloc, name) {
            Ok(kept) => self.shared.config.set(Some(kept)),
            Err(_) => return Err(LoadFault::Memory),
        }
        self.files.load(alloc, name)
    }
}
