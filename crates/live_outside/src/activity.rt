//! Which of two links spoke last, so that neither keeps the other from its arrivals.
ghost use Rattle.std.specs.Prelude.{◌≡◌, ◌≢◌, ◌<◌};
ghost use Rattle.live_outside.specs.declared.activity.Patience.{Patience};

use std::cell::Cell;

/// A link spoke lately where it has fewer receives in a row than these without an arrival: at naps of half a
/// millisecond some 150 ms.
const LATELY: u32 = 256;

/// How long a receive may wait for an arrival.
#[derive(Clone, Copy)]
pub(crate) enum Patience {
    /// Not at all.
    Hurry,
    /// For a nap after it found nothing, in which neither link is heard.
    Nap,
    /// In the socket, where it hears its own link alone.
    Wait,
}

/// How many receives in a row of each of the two links of a program had no arrival. Both have been silent
/// for long at first.
#[derive(Drop)]
pub struct Activity {
    bus: Cell<u32>,
    net: Cell<u32>,
}

// How long a receive may wait on a link of so many receives in a row without an arrival, where the other link
// has so many. Only the link that spoke last waits, since its next arrival is the likelier one, and never
// while the other may have more: a receive can't hear the other link. Where both spoke lately it naps, for
// then each may be the next to speak.
fn wait_of(own: u32, other: u32) -> Patience
    ensures leaves_a_busy_link_alone { other ≡ 0 → result ≡ Patience.Hurry }
    ensures waits_where_it_spoke_last { other < own → result ≡ Patience.Hurry }
    ensures hears_who_spoke_lately { other < 256 → result ≢ Patience.Wait }
{
    if other == 0 || other < own {
        Patience::Hurry
    } else if other < LATELY {
        Patience::Nap
    } else {
        Patience::Wait
    }
}

impl Activity {
    /// Two silent links.
    pub fn new() -> Self {
        Activity {
            bus: Cell::new(LATELY),
            net: Cell::new(LATELY),
        }
    }

    /// The sides of the bus link and of the net link.
    pub(crate) fn sides(&self) -> (Side<'_>, Side<'_>) {
        let bus = Side {
            own: &self.bus,
            other: &self.net,
        };
        let net = Side {
            own: &self.net,
            other: &self.bus,
        };
        (bus, net)
    }
}

impl Default for Activity {
    fn default() -> Self {
        Activity::new()
    }
}

/// What one link knows of itself and of the other.
#[derive(Clone, Copy)]
pub(crate) struct Side<'a> {
    own: &'a Cell<u32>,
    other: &'a Cell<u32>,
}

impl Side<'_> {
    /// How long the next receive on this link may wait.
    pub(crate) fn patience(&self) -> Patience {
        wait_of(self.own.get(), self.other.get())
    }

    /// Notes whether a receive on this link had an arrival.
    pub(crate) fn note(&self, arrived: bool) {
        let silent = if arrived {
            0
        } else {
            self.own.get().saturating_add(1)
        };
        self.own.set(silent);
    }
}
