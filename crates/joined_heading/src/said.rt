//! A message of the variation.
ghost use Rattle.std.specs.Prelude.{◌≡◌};
ghost use Rattle.readings.specs.Ranges.{Admits, deviation};
ghost use Rattle.readings.specs.Rows.{IsValid};
ghost use Rattle.bus_listener.specs.Lent.{complete_in};
ghost use Rattle.joined_heading.specs.Kept.{message_in, said_of};
ghost use Rattle.joined_heading.specs.Variations.{is_short, variation_of};

use bus_listener::HeardMessage;
use n2k_id::Name;
use parts::SelectedMessage;
use pgn_profile::signed;
use readings::Reading;
use readings::range::DEVIATION;

/// Who sent it, when, and what it says.
#[derive(Clone, Copy)]
pub(crate) struct Said {
    /// In microseconds.
    pub(crate) moment: u64,
    pub(crate) source: u8,
    /// The NAME that holds the source.
    pub(crate) name: Name,
    pub(crate) pgn: u32,
    /// Whether it has too few bytes.
    pub(crate) short: bool,
    /// In 1e-4 radian, positive to the east.
    pub(crate) variation: Option<i64>,
}

/// What a message says.
pub(crate) fn said_by(message: &HeardMessage<'_>) -> Said
    ensures said { result ≡ said_of (complete_in message.now) }
    ensures range { Admits deviation result.variation }
{
    Said {
        moment: message.moment,
        source: message.source,
        name: message.name,
        pgn: message.pgn,
        short: message.payload.len() < 6,
        variation: variation(message.payload),
    }
}

fn variation(payload: &[u8]) -> Option<i64>
    ensures value { result ≡ variation_of payload.now }
    ensures range { Admits deviation result }
{
    signed(payload, 4, 2, DEVIATION)
}

/// The message as a reading of which the variation alone is there.
pub(crate) fn message_in(said: &Said) -> SelectedMessage
    requires { Admits deviation said.now.variation }
    ensures value { result ≡ message_in said.now }
    ensures valid { IsValid result.reading }
{
    SelectedMessage {
        source: said.source,
        name: said.name,
        moment: said.moment,
        reading: Reading::HeadingMagnetic {
            heading: None,
            deviation: None,
            variation: said.variation,
        },
    }
}
