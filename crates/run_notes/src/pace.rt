//! How often lines of one kind may be said.
ghost use Rattle.std.specs.Prelude.{◌≡◌, ◌<◌, ◌+◌, ◌^◌, ◌↔◌, IsTrue};
ghost use Rattle.run_notes.specs.Pacing.{Allows};

/// How long a line keeps the next one of its kind back, in microseconds.
const BETWEEN_LINES_US: u64 = 1_000_000;

/// How many lines of one kind a run says: with four kinds too few to fill a pipe of 64 KiB that nobody reads.
const MOST_LINES: u32 = 100;

/// When the next line of one kind may be said, in microseconds of the run's clock, and how many there were.
#[derive(Clone, Copy, Default)]
pub(crate) struct Pace {
    from_us: u64,
    lines: u32,
}

impl Pace {
    /// Whether a line may be said at this moment. If so, the next one may be said a second later.
    pub(crate) fn allows(&mut self, now_us: u64) -> bool
        ensures answer { IsTrue result ↔ Allows self.old now_us }
        ensures later { Allows self.old now_us → now_us + 1000000 < 2 ^ 64 → self.new.from_us ≡ now_us + 1000000 }
        ensures counted { Allows self.old now_us → self.new.lines ≡ self.old.lines + 1 }
        ensures kept { (Allows self.old now_us → ⊥) → self.new ≡ self.old }
    {
        if now_us < self.from_us || self.lines >= MOST_LINES {
            return false;
        }
        self.from_us = now_us.saturating_add(BETWEEN_LINES_US);
        self.lines += 1;
        true
    }

    /// What a line ends with: the last one of its kind says so.
    pub(crate) fn end_of_line(&self) -> &'static str {
        if self.lines < MOST_LINES {
            ""
        } else {
            "; this run says no more of it"
        }
    }
}
