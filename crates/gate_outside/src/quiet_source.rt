//! An input in memory that never fails.
use crate::supply::Supply;
use crate::{Failed, Source};
use std::marker::Model;

/// An input in memory whose reads never fail. It always tells what is left.
#[derive(Drop)]
pub struct QuietSource {
    supply: Supply,
}

impl Model for QuietSource {
    ghost use Rattle.gate_outside.specs.QuietInput.{QuietInput};

    ghost Value = { QuietInput };

    ghost view = { λ s. s.supply };
}

impl QuietSource {
    ghost use Rattle.std.specs.Prelude.{◌≡◌, ◌<◌, IsTrue};

    /// An input of the bytes `left`, of which a read moves at most `most`.
    pub fn of(left: Vec<u8>, most: usize) -> Self
        requires { 0 < most }
        ensures { result ≡ record { left = left.items; most = most } }
    {
        QuietSource {
            supply: Supply::of(left, most),
        }
    }

    /// Whether the content is told: always.
    pub fn tells(&self) -> bool
        ensures { IsTrue result }
    {
        true
    }
}

impl Source for QuietSource {
    ghost use Rattle.std.specs.Prelude.{◌≡◌, ◌≤◌, Some, length, IfOk};
    ghost use Rattle.gate_outside.specs.Faults.{HasCause};
    ghost use Rattle.gate_outside.specs.Source.{Reads, TellsEnd};
    ghost use Rattle.gate_outside.specs.QuietInput.{ReadsQuietly};

    ghost left = { λ s. Some s.left };

    ghost fault_count = { λ _. 0 };

    fn faults(&self) -> u64 {
        0
    }

    fn read(&mut self, buf: &mut [u8]) -> Result<usize, Failed>
        ensures bound { IfOk result (λ count. count ≤ length buf.new) }
        ensures bytes { Reads (Some self.old.left) (Some self.new.left) buf.new result }
        ensures end { TellsEnd (Some self.old.left) buf.new result }
        ensures cause { HasCause 0 0 result }
        ensures exact { ReadsQuietly self.old self.new buf.new result }
    {
        Ok(self.supply.move_into(buf))
    }
}
