//! What the gateway itself says of the water's temperature.
ghost use Rattle.std.specs.Prelude.{◌≡◌};
ghost use Rattle.parts.specs.Picked.{IsMessageValid, last_picked};
ghost use Rattle.readings.specs.declared.rows.Row.TheVariants as row;
ghost use Rattle.gate_model.specs.AddressStands.{name_held};
ghost use Rattle.history.specs.Choice.{is_usable};
ghost use Rattle.joined_rmc.specs.Kept.{last_with, lent};
ghost use Rattle.further_bridge.specs.Kept.{is_water_said, water_heard};

use crate::bridge::FurtherBridge;
use joined_rmc::LastOfRow;
use parts::{Gateway, Outbox, SelectedMessage};
use readings::{Reading, Row, usable};

impl FurtherBridge {
    /// Forgets what the gateway said of the row where its sender lost its address, and keeps the message that it selected, where it is newer.
    pub(crate) fn hear_water(&mut self, gateway: &Gateway, outbox: &Outbox)
        ensures { self.new ≡ water_heard (name_held gateway.now.addresses.claims.holders) (last_picked gateway.now outbox.now) self.old }
    {
        self.water.forget_lost(gateway);
        if outbox.selected() {
            keep_water(gateway, outbox, &mut self.water);
        }
    }

    /// Whether the gateway says the row at this moment.
    pub(crate) fn is_water_said(&self, moment: u64) -> bool
        ensures { result ≡ is_water_said self.now.water moment }
    {
        says_a_value(self.water.says(moment))
    }
}

/// Keeps the message that the gateway selected, where it is of the row. Few events have one.
#[inline(never)]
fn keep_water(gateway: &Gateway, outbox: &Outbox, water: &mut LastOfRow)
    requires { IsMessageValid water.old.message }
    ensures after { water.new ≡ last_with row.WaterTemperature (last_picked gateway.now outbox.now) water.old }
    ensures valid { IsMessageValid water.new.message }
{
    if let Some(new) = SelectedMessage::of(gateway, outbox) {
        water.keep_newer(Row::WaterTemperature, &new);
    }
}

/// Whether what is said, if anything is, has a value.
fn says_a_value(reading: Option<&Reading>) -> bool
    ensures { result ≡ is_usable (lent reading.entry) }
{
    match reading {
        Some(reading) => usable(reading),
        None => false,
    }
}
