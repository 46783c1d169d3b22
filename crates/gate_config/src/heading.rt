//! The keys of `heading`: how headings are joined, and whose variation they take.
ghost use Rattle.std.specs.Prelude.{◌≡◌, IfOk, option_map};
ghost use Rattle.std.specs.Option.{ForSome};
ghost use Rattle.config_document.specs.Places.{place_of};
ghost use Rattle.gate_config.specs.Beside.{IsGroupBeside};
ghost use Rattle.gate_config.specs.Keys.{heading};
ghost use Rattle.gate_config.specs.Reading.{table_in};
ghost use Rattle.settings.specs.Setup.{IsHeading, heading_group};

use crate::keys::{section, truth_or};
use crate::parts::own_group;
use crate::quantity::{asks_as_quantity, quantity_keys};
use crate::words::{GROUP, HDM, HEADING, HEADING_PREFIX, OTHERS, SOURCES, TALKER, TIMEOUT_MS};
use config_document::{ConfigFault, Section};
use config_values::{RowConfig, USUAL_TIMEOUT_MS};
use sentence_text::Group;
use settings::HeadingConfig;

pub(crate) const KEYS: [&str; 6] = [GROUP, SOURCES, OTHERS, TIMEOUT_MS, TALKER, HDM];

/// How headings are joined, if they are: to a group that no row and no other part has.
#[tactic(auto, unfolding(crate::specs::Keys::heading))]
pub(crate) fn heading_keys(
    document: &Section,
    rows: &[RowConfig],
    parts: &[Option<Group>],
) -> Result<Option<HeadingConfig>, ConfigFault>
    ensures said { result ≡ table_in heading (rows.now, parts.now) (place_of document.now) }
    ensures valid { IfOk result (λ all. ForSome all (IsHeading (IsGroupBeside rows.now parts.now))) }
{
    let table = section(document, HEADING, HEADING_PREFIX)?;
    let own = own_group(&table, GROUP, rows, parts, asks_as_quantity(&table, HDM))?;
    let variation = quantity_keys(&table, *b"HC", USUAL_TIMEOUT_MS)?;
    let hdm = truth_or(&table, HDM, false)?;
    match own {
        None => Ok(None),
        Some(group) => Ok(Some(HeadingConfig {
            group,
            variation,
            hdm,
        })),
    }
}

/// The group of joined headings.
pub(crate) fn heading_group(heading: &Option<HeadingConfig>) -> Option<Group>
    ensures { result ≡ heading_group heading.now }
{
    match heading {
        None => None,
        Some(heading) => Some(heading.group),
    }
}
