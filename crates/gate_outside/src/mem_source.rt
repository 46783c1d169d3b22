//! An input in memory that fails at the reads that it is told to.
use crate::failures::Failures;
use crate::supply::Supply;
use crate::{Failed, Source};
use std::marker::Model;

/// An input in memory. It always tells what is left.
#[derive(Drop)]
pub struct MemSource {
    supply: Supply,
    failures: Failures,
}

impl Model for MemSource {
    ghost use Rattle.gate_outside.specs.MemInput.{MemInput};

    ghost Value = { MemInput };

    ghost view = { λ s. record { left = s.supply.left; most = s.supply.most; script = s.failures } };
}

impl MemSource {
    ghost use Rattle.std.specs.Prelude.{◌≡◌, ◌<◌, IsTrue};

    /// An input of the bytes `left`, of which a read moves at most `most`. The reads whose numbers
    /// stand in `failing`, counted from 1, fail.
    pub fn of(left: Vec<u8>, most: usize, failing: Vec<u32>) -> Self
        requires { 0 < most }
        ensures { result ≡ record {
          left = left.items;
          most = most;
          script = record { failing = failing.items; calls = 0; faults = 0 };
        } }
    {
        MemSource {
            supply: Supply::of(left, most),
            failures: Failures::at(failing),
        }
    }

    /// Whether the content is told: always.
    pub fn tells(&self) -> bool
        ensures { IsTrue result }
    {
        true
    }
}

impl Source for MemSource {
    ghost use Rattle.std.specs.Prelude.{◌≡◌, ◌≤◌, Some, length, IfOk};
    ghost use Rattle.gate_outside.specs.Faults.{HasCause};
    ghost use Rattle.gate_outside.specs.Source.{Reads, TellsEnd};
    ghost use Rattle.gate_outside.specs.MemInput.{ReadsMemory};

    ghost left = { λ s. Some s.left };

    ghost fault_count = { λ s. s.script.faults };

    fn faults(&self) -> u64 {
        self.failures.faults()
    }

    fn read(&mut self, buf: &mut [u8]) -> Result<usize, Failed>
        ensures bound { IfOk result (λ count. count ≤ length buf.new) }
        ensures bytes { Reads (Some self.old.left) (Some self.new.left) buf.new result }
        ensures end { TellsEnd (Some self.old.left) buf.new result }
        ensures cause { HasCause self.old.script.faults self.new.script.faults result }
        ensures exact { ReadsMemory self.old self.new buf.new result }
    {
        let failed = self.failures.is_next();
        self.failures.count(failed);
        if failed {
            return Err(Failed);
        }
        Ok(self.supply.move_into(buf))
    }
}
