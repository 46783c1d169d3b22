//! Which numbered calls fail, for the memory forms.
ghost use Rattle.std.specs.Prelude.{◌≡◌, vec_len};

use std::marker::Model;

/// The numbers of the calls of one kind that fail, counted from 1, with how many calls and faults
/// there were so far. Both counts stop at their last value.
#[derive(Drop)]
pub(crate) struct Failures {
    failing: Vec<u32>,
    calls: u64,
    faults: u64,
}

impl Model for Failures {
    ghost use Rattle.gate_outside.specs.Faults.{Script};

    ghost Value = { Script };

    ghost view = { λ f. record { failing = f.failing.items; calls = f.calls; faults = f.faults } };
}

impl Failures {
    ghost use Rattle.std.specs.Prelude.{◌≡◌, ◌≤◌, ◌-◌, IsTrue, nat_le};
    ghost use Rattle.gate_outside.specs.Faults.{last_count, fails_next, after_call, Rose};

    pub(crate) fn at(failing: Vec<u32>) -> Self
        ensures { result ≡ record { failing = failing.items; calls = 0; faults = 0 } }
    {
        Failures {
            failing,
            calls: 0,
            faults: 0,
        }
    }

    pub(crate) fn faults(&self) -> u64
        ensures { result ≡ self.now.faults }
    {
        self.faults
    }

    /// Whether one more call is more than can be counted.
    pub(crate) fn is_last(&self) -> bool
        ensures { result ≡ nat_le last_count self.now.calls }
    {
        self.calls == u64::MAX
    }

    /// How many calls didn't fail.
    pub(crate) fn passed(&self) -> u64
        ensures { result ≡ self.now.calls - self.now.faults }
    {
        self.calls.saturating_sub(self.faults)
    }

    /// Whether the next call is one that fails.
    pub(crate) fn is_next(&self) -> bool
        ensures { result ≡ fails_next self.now }
    {
        self.failing.iter().any(|number| u64::from(*number) == self.calls.saturating_add(1))
    }

    /// Counts a call, and its fault where it failed.
    pub(crate) fn count(&mut self, failed: bool)
        ensures numbered { self.new ≡ after_call self.old failed }
        ensures never_falls { self.old.faults ≤ self.new.faults }
        ensures rose { IsTrue failed → Rose self.old.faults self.new.faults }
    {
        self.calls = self.calls.saturating_add(1);
        if failed {
            self.faults = self.faults.saturating_add(1);
        }
    }
}
