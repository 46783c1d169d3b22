//! The keys that rows, further quantities and the parts that are taken as one have alike: whom it is taken from, and who says it.
ghost use Rattle.std.specs.Prelude.{◌≡◌, IfOk};
ghost use Rattle.std.specs.Int.{IsInRange};
ghost use Rattle.config_document.specs.Places.{place_of};
ghost use Rattle.config_document.specs.Texts.{IsTalker};
ghost use Rattle.gate_config.specs.Keys.{asks_as_quantity, quantity};
ghost use Rattle.settings.specs.Setup.{IsQuantity};

use crate::devices::devices;
use crate::keys::{any_stands, number_or, stands_at, text_or, truth_or};
use crate::words::{OTHERS, SOURCES, TALKER, TIMEOUT_MS};
use config_document::{ConfigFault, Section, Talker};
use settings::QuantityConfig;

pub(crate) const KEYS: [&str; 4] = [SOURCES, OTHERS, TIMEOUT_MS, TALKER];

/// Whom a quantity is taken from and who says it: with this talker and this timeout, where no others are configured.
#[tactic(auto, unfolding(crate::specs::Keys::quantity))]
pub(crate) fn quantity_keys(
    section: &Section,
    talker: [u8; 2],
    timeout_ms: u32,
) -> Result<QuantityConfig, ConfigFault>
    requires talker { IsTalker talker }
    requires timeout { IsInRange 100 60000 timeout_ms }
    ensures said { result ≡ quantity.read (talker, timeout_ms) (place_of section.now) }
    ensures valid { IfOk result IsQuantity }
{
    let sources = devices(section, SOURCES)?;
    let others = truth_or(section, OTHERS, true)?;
    let timeout_ms = number_or(section, TIMEOUT_MS, 100, 60_000, timeout_ms)?;
    let Talker(talker) = text_or(section, TALKER, Talker(talker))?;
    Ok(QuantityConfig {
        sources,
        others,
        timeout_ms,
        talker,
    })
}

/// Whether a part that is taken as a quantity asks for its group: by this key of its own, or by one of those of a quantity.
#[tactic(auto, unfolding(crate::specs::Keys::quantity))]
pub(crate) fn asks_as_quantity(table: &Section, key: &str) -> bool
    ensures { result ≡ asks_as_quantity key.now (place_of table.now) }
{
    stands_at(table, key) || any_stands(table, &KEYS)
}
