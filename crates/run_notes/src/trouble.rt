//! A call that fails again and again.
ghost use Rattle.std.specs.Prelude.{◌≡◌, ◌<◌, ◌↔◌, Some, None, IsTrue, IfSome, IsSome, true, false};
ghost use Rattle.run_notes.specs.Pacing.{SaysEnd, SaysFailure};

use crate::pace::Pace;

/// How often a call failed since it last succeeded, and whether that was said.
#[derive(Clone, Copy, Default)]
pub(crate) struct Trouble {
    failures: u64,
    is_said: bool,
}

impl Trouble {
    /// Whether the call failed when it was last made, or its end hasn't been said yet.
    pub(crate) fn is_there(&self) -> bool
        ensures { IsTrue result ↔ (0 < self.now.failures) }
    {
        self.failures > 0
    }

    /// The call failed. Answers whether that is to be said: once, as soon as the pace allows it.
    pub(crate) fn fails(&mut self, pace: &mut Pace, now_us: u64) -> bool
        ensures answer { IsTrue result ↔ SaysFailure self.old pace.old now_us }
        ensures there { 0 < self.new.failures }
        ensures said { IsTrue result → self.new.is_said ≡ true }
    {
        self.failures = self.failures.saturating_add(1);
        if self.is_said || !pace.allows(now_us) {
            return false;
        }
        self.is_said = true;
        true
    }

    /// The call succeeded. Answers how often it had failed, if that is to be said: its failure was, and the pace allows it. What
    /// was never said ends without a word.
    pub(crate) fn ends(&mut self, pace: &mut Pace, now_us: u64) -> Option<u64>
        ensures answer { IsSome result ↔ SaysEnd self.old pace.old now_us }
        ensures failures { IfSome result (λ failures. failures ≡ self.old.failures) }
        ensures over { IsSome result → self.new.failures ≡ 0 }
        ensures unsaid { self.old.is_said ≡ false → self.new.failures ≡ 0 }
    {
        if !self.is_said {
            *self = Trouble::default();
            return None;
        }
        if !pace.allows(now_us) {
            return None;
        }
        let failures = self.failures;
        *self = Trouble::default();
        Some(failures)
    }
}
