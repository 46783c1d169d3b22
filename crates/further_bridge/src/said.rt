//! A message that is complete, with what it says of the quantities.
ghost use Rattle.std.specs.Prelude.{◌≡◌, None, Some};
ghost use Rattle.quantities.specs.Told.{GivesFrom, entries};
ghost use Rattle.bus_listener.specs.Lent.{complete_in};
ghost use Rattle.further_bridge.specs.FurtherOut.{is_magnetic};
ghost use Rattle.further_bridge.specs.Kept.{said_of, streams_of, value_stream};

use bus_listener::HeardMessage;
use n2k_id::Name;
use parts::Stream;
use quantities::{Told, Value};
use readings::bits;

/// Who sent it, when it was complete, and what it says.
#[derive(Clone, Copy)]
pub(crate) struct Said {
    /// In microseconds.
    pub(crate) moment: u64,
    pub(crate) source: u8,
    /// The NAME that holds the source.
    pub(crate) name: Name,
    pub(crate) pgn: u32,
    pub(crate) told: Told,
    /// Whether its directions are from magnetic north.
    pub(crate) magnetic: bool,
}

/// The streams of a message's values, at their places.
#[derive(Clone, Copy)]
pub struct Streams {
    pub(crate) first: Option<Stream>,
    pub(crate) second: Option<Stream>,
    pub(crate) third: Option<Stream>,
}

/// What a message says.
pub(crate) fn said_by(message: &HeardMessage<'_>) -> Said
    ensures said { result ≡ said_of (complete_in message.now) }
    ensures range { GivesFrom entries result.told }
{
    Said {
        moment: message.moment,
        source: message.source,
        name: message.name,
        pgn: message.pgn,
        told: quantities::read(message.pgn, message.payload),
        magnetic: is_magnetic(message.payload),
    }
}

/// Whether the directions of a message are from magnetic north.
fn is_magnetic(payload: &[u8]) -> bool
    ensures { result ≡ is_magnetic payload.now }
{
    match payload.get(1) {
        Some(byte) => bits(*byte, 0, 2) == 1,
        None => false,
    }
}

/// The streams of the values of a message.
pub(crate) fn streams_of(said: &Said) -> Streams
    ensures { result ≡ streams_of (Some said.now) }
{
    match &said.told {
        Told::Values(values) => Streams {
            first: value_stream(said.magnetic, &values[0]),
            second: value_stream(said.magnetic, &values[1]),
            third: value_stream(said.magnetic, &values[2]),
        },
        Told::Outside | Told::Short => no_streams(),
    }
}

/// Those of no message.
pub(crate) fn no_streams() -> Streams
    ensures { result ≡ streams_of None }
{
    Streams {
        first: None,
        second: None,
        third: None,
    }
}

fn value_stream(magnetic: bool, value: &Option<Value>) -> Option<Stream>
    ensures { result ≡ value_stream magnetic value.now }
{
    match value {
        Some(value) => Some(Stream::of_quantity(value.quantity, magnetic)),
        None => None,
    }
}
