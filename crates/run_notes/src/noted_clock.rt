//! The clock of a run that is told.
use crate::shared::Shared;
use gate_outside::Clock;
use live_outside::SystemClock;

/// The time of the system, of which the last reading is kept, so that no line of standard error asks for another one.
#[derive(Drop)]
pub struct NotedClock<'a, R> {
    clock: SystemClock<'a, R>,
    shared: &'a Shared,
}

impl<'a, R: std::time::Clock> NotedClock<'a, R> {
    /// The clock, which wasn't read yet.
    pub fn new(clock: SystemClock<'a, R>, shared: &'a Shared) -> Self {
        NotedClock { clock, shared }
    }
}

impl<'a, R: std::time::Clock> Clock for NotedClock<'a, R> {
    ghost use Rattle.std.specs.Prelude.{None};

    ghost readings = { λ _. None };

    fn now(&mut self) -> u64 {
        let now = self.clock.now();
        self.shared.now_us.set(now);
        now
    }
}
