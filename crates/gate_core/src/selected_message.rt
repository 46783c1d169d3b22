//! The message that a step of the gateway selected.
ghost use Rattle.std.specs.Prelude.{◌≡◌};
ghost use Rattle.gate_core.specs.Picked.{IsMessageValid, IsPicked, last_picked, picked_at};

use crate::gateway::Gateway;
use gate_outbox::Outbox;
use n2k_id::Name;
use readings::Reading;

/// A message that was selected.
#[derive(Clone, Copy)]
pub struct SelectedMessage {
    pub source: u8,
    /// The NAME that held the source.
    pub name: Name,
    /// In microseconds.
    pub moment: u64,
    pub reading: Reading,
}

impl SelectedMessage {
    /// The message that the last step of the gateway selected, by what it left. Most steps select none: whoever asks [`Outbox::selected`] first is
    /// spared a None, which is written in all its bytes.
    pub fn of(gateway: &Gateway, outbox: &Outbox) -> Option<SelectedMessage>
        ensures exact { result ≡ last_picked gateway.now outbox.now }
        ensures selected { IsPicked gateway.now outbox.now result }
        ensures valid { IsMessageValid result }
    {
        picked(gateway.moment(), outbox)
    }
}

/// The message that a step at this moment selected.
fn picked(moment: u64, outbox: &Outbox) -> Option<SelectedMessage>
    ensures selected { result ≡ picked_at moment outbox.now }
    ensures valid { IsMessageValid result }
{
    if !outbox.selected() {
        return None;
    }
    let done = outbox.done()?;
    Some(SelectedMessage {
        source: done.source,
        name: done.name,
        moment,
        reading: done.reading?,
    })
}
