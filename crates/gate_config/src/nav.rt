//! The keys of `nav`: how the legs of plotters are said, and from whom they are taken.
ghost use Rattle.std.specs.Prelude.{◌≡◌, IfOk, option_map};
ghost use Rattle.std.specs.Option.{ForSome};
ghost use Rattle.config_document.specs.Places.{place_of};
ghost use Rattle.gate_config.specs.Beside.{IsGroupBeside};
ghost use Rattle.gate_config.specs.Keys.{nav};
ghost use Rattle.gate_config.specs.Reading.{table_in};
ghost use Rattle.settings.specs.Setup.{IsNav, nav_group};

use crate::keys::{number_or, section};
use crate::parts::own_group;
use crate::quantity::{asks_as_quantity, quantity_keys};
use crate::words::{GROUP, NAV, NAV_PREFIX, OTHERS, SLOTS, SOURCES, TALKER, TIMEOUT_MS};
use config_document::{ConfigFault, Section};
use config_values::RowConfig;
use sentence_text::Group;
use settings::NavConfig;

pub(crate) const KEYS: [&str; 6] = [GROUP, SLOTS, SOURCES, OTHERS, TIMEOUT_MS, TALKER];

/// How the legs of plotters are said, if they are: to a group that no row and no other part has.
#[tactic(auto, unfolding(crate::specs::Keys::nav))]
pub(crate) fn nav_keys(
    document: &Section,
    rows: &[RowConfig],
    parts: &[Option<Group>],
) -> Result<Option<NavConfig>, ConfigFault>
    ensures said { result ≡ table_in nav (rows.now, parts.now) (place_of document.now) }
    ensures valid { IfOk result (λ all. ForSome all (IsNav (IsGroupBeside rows.now parts.now))) }
{
    let table = section(document, NAV, NAV_PREFIX)?;
    let own = own_group(&table, GROUP, rows, parts, asks_as_quantity(&table, SLOTS))?;
    let slots = number_or(&table, SLOTS, 1, 256, 16)? as u16;
    let legs = quantity_keys(&table, *b"GP", 2_500)?;
    match own {
        None => Ok(None),
        Some(group) => Ok(Some(NavConfig { group, slots, legs })),
    }
}

/// The group of the legs of plotters.
pub(crate) fn nav_group(nav: &Option<NavConfig>) -> Option<Group>
    ensures { result ≡ nav_group nav.now }
{
    match nav {
        None => None,
        Some(nav) => Some(nav.group),
    }
}
