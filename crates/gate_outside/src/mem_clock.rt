//! A clock in memory.
ghost use Rattle.std.specs.Prelude.{◌≡◌};
ghost use Rattle.gate_outside.specs.MemTime.{reading_at};

use crate::Clock;
use std::marker::Model;

/// A clock that gives the readings of a list. Where the list has ended it repeats the last one, or
/// gives 0 where there was none. It tells its readings for as long as they are fewer than 2^64.
#[derive(Drop)]
pub struct MemClock {
    script: Vec<u64>,
    count: u64,
    told: bool,
}

impl Model for MemClock {
    ghost use Rattle.std.specs.Prelude.{Some, None, if◌then◌else◌};
    ghost use Rattle.gate_outside.specs.MemTime.{MemTime, first_readings};

    ghost Value = { MemTime };

    ghost view = { λ c. record {
      script = c.script.items;
      readings = if c.told then Some (first_readings c.script.items c.count) else None;
    } };
}

impl MemClock {
    ghost use Rattle.std.specs.Prelude.{◌≡◌, [], Some, is_some};

    /// A clock that gives these readings in microseconds, and has given none yet.
    pub fn of(readings: Vec<u64>) -> Self
        ensures { result ≡ record { script = readings.items; readings = Some [] } }
    {
        MemClock {
            script: readings,
            count: 0,
            told: true,
        }
    }

    /// Whether the readings are told: for as long as they are fewer than 2^64.
    pub fn tells(&self) -> bool
        ensures { result ≡ is_some self.now.readings }
    {
        self.told
    }
}

// The reading at a place.
fn reading_at(script: &[u64], place: u64) -> u64
    ensures { result ≡ reading_at script.now place }
{
    match script {
        [] => 0,
        [.., last] => {
            let place = place as usize;
            if place < script.len() {
                script[place]
            } else {
                *last
            }
        }
    }
}

impl Clock for MemClock {
    ghost readings = { λ c. c.readings };

    fn now(&mut self) -> u64 {
        let reading = reading_at(&self.script, self.count);
        match self.count.checked_add(1) {
            Some(count) => self.count = count,
            None => self.told = false,
        }
        reading
    }
}
