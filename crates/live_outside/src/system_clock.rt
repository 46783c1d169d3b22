//! The time of the system.
use gate_outside::Clock;
use std::io;
use std::marker::Model;
use std::time::Duration;

/// The time of the system in microseconds since 1970. That is taken once, and from then on only what the
/// monotonic clock adds, so a system whose date is set doesn't set it: no reading is less than one before.
/// Where the system can't say its date, the time begins at 0; where it can't say its monotonic clock, the
/// time stands still.
#[derive(Drop)]
pub struct SystemClock<'a, R> {
    rt: &'a R,
    since_1970: u64,
    began: u64,
    last: u64,
}

impl<'a, R> Model for SystemClock<'a, R> {
    ghost use Rattle.std.specs.Prelude.{ℕ};

    ghost Value = { ℕ };

    ghost view = { λ c. c.last };
}

// A time in microseconds, up to the last that a number holds. An unknown one is 0.
fn microseconds(time: io::Result<Duration>) -> u64 {
    match time {
        Ok(time) => u64::try_from(time.as_micros()).unwrap_or(u64::MAX),
        Err(_) => 0,
    }
}

impl<'a, R: std::time::Clock> SystemClock<'a, R> {
    /// A clock that begins at the time of the system.
    pub fn new(rt: &'a R) -> Self {
        let since_1970 = microseconds(rt.since_1970());
        SystemClock {
            rt,
            since_1970,
            began: microseconds(rt.monotonic()),
            last: since_1970,
        }
    }
}

impl<'a, R: std::time::Clock> Clock for SystemClock<'a, R> {
    ghost use Rattle.std.specs.Prelude.{◌≡◌, ◌≤◌, None, ◌∷◌, []};
    ghost use Rattle.gate_outside.specs.Told.{Joins};

    ghost readings = { λ _. None };

    fn now(&mut self) -> u64
        ensures untold { Joins None None (result ∷ []) }
        ensures reading { result ≡ self.new }
        ensures never_falls { self.old ≤ self.new }
    {
        let passed = microseconds(self.rt.monotonic()).saturating_sub(self.began);
        self.last = self.last.max(self.since_1970.saturating_add(passed));
        self.last
    }
}
