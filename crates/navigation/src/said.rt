//! A message of a plotter.
ghost use Rattle.std.specs.Prelude.{◌≡◌};
ghost use Rattle.bus_listener.specs.Lent.{complete_in};
ghost use Rattle.navigation.specs.Kept.{IsSound, said_of, says_in};

use crate::kinds::{ERROR, LEG};
use crate::leg::{Goal, LEAST_ERROR, LEAST_LEG, Leg, error_in, goal_in, leg_in};
use bus_listener::HeardMessage;
use n2k_id::Name;

/// What a message says.
#[derive(Clone, Copy)]
pub(crate) enum Says {
    /// A leg, and where it goes.
    Leg(Leg, Goal),
    /// How far the boat is from the line of the leg, in 0.01 m.
    Error(Option<i64>),
    /// A leg of too few bytes.
    Short,
    /// An error of too few bytes, which the gateway reports.
    Nothing,
}

/// Who sent it, when it was complete, and what it says.
#[derive(Clone, Copy)]
pub(crate) struct Said {
    /// In microseconds.
    pub(crate) moment: u64,
    pub(crate) source: u8,
    /// The NAME that holds the source.
    pub(crate) name: Name,
    pub(crate) pgn: u32,
    pub(crate) says: Says,
}

/// What a message says.
pub(crate) fn said_by(message: &HeardMessage<'_>) -> Said
    ensures said { result ≡ said_of (complete_in message.now) }
    ensures sound { IsSound result.says }
{
    Said {
        moment: message.moment,
        source: message.source,
        name: message.name,
        pgn: message.pgn,
        says: says_in(message.pgn, message.payload),
    }
}

fn says_in(pgn: u32, payload: &[u8]) -> Says
    ensures says { result ≡ says_in pgn payload.now }
    ensures sound { IsSound result }
{
    match pgn {
        LEG if payload.len() < LEAST_LEG => Says::Short,
        LEG => Says::Leg(leg_in(payload), goal_in(payload)),
        ERROR if payload.len() >= LEAST_ERROR => Says::Error(error_in(payload)),
        _ => Says::Nothing,
    }
}
