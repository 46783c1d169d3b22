//! The time.
ghost use Rattle.std.specs.Prelude.{ℕ, List, Option, ◌∷◌, []};
ghost use Rattle.gate_outside.specs.Told.{Joins};

/// A clock.
pub trait Clock {
    /// The readings that were taken, where they are told. Once untold, they are never told again.
    ghost readings: { Self → Option (List ℕ) };

    /// The next reading, in microseconds.
    fn now(&mut self) -> u64
        ensures { Joins (readings self.old) (readings self.new) (result ∷ []) };
}
