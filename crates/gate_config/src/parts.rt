//! The keys of `rmc` and `ais`: parts beside the gateway, each with a transmission group of its own.
ghost use Rattle.std.specs.Prelude.{◌≡◌, IfOk, false, option_map};
ghost use Rattle.std.specs.List.{list_any};
ghost use Rattle.std.specs.Option.{ForSome};
ghost use Rattle.config_document.specs.Keys.{text_at};
ghost use Rattle.config_document.specs.Places.{place_of};
ghost use Rattle.config_document.specs.Texts.{group_in};
ghost use Rattle.gate_config.specs.Beside.{IsAisBeside, IsGroupBeside};
ghost use Rattle.gate_config.specs.Keys.{ais, is_group_of, is_taken, own_group, rmc};
ghost use Rattle.gate_config.specs.Reading.{table_in};
ghost use Rattle.gate_config.specs.Texts.{same_text};
ghost use Rattle.settings.specs.Settings.{IsRmc};

use crate::keys::{number_or, section, stands_at, text_or};
use crate::words::{AIS, AIS_PREFIX, GROUP, RMC, RMC_PREFIX, SLOTS, TALKER};
use config_document::{ConfigFault, Flaw, Section, Talker};
use config_values::RowConfig;
use sentence_text::Group;
use settings::{AisConfig, RmcConfig};

pub(crate) const RMC_KEYS: [&str; 2] = [GROUP, TALKER];

pub(crate) const AIS_KEYS: [&str; 2] = [GROUP, SLOTS];

#[tactic(auto, using(crate::proofs::Values::talker), unfolding(crate::specs::Keys::rmc))]
pub(crate) fn rmc_keys(
    document: &Section,
    rows: &[RowConfig],
) -> Result<Option<RmcConfig>, ConfigFault>
    ensures said { result ≡ table_in rmc rows.now (place_of document.now) }
    ensures valid { IfOk result (λ rmc. ForSome rmc (IsRmc rows.now)) }
{
    let table = section(document, RMC, RMC_PREFIX)?;
    let own = own_group(&table, GROUP, rows, &[], stands_at(&table, TALKER))?;
    let Talker(talker) = text_or(&table, TALKER, Talker(*b"GP"))?;
    match own {
        None => Ok(None),
        Some(group) => Ok(Some(RmcConfig { group, talker })),
    }
}

#[tactic(auto, unfolding(crate::specs::Keys::ais))]
pub(crate) fn ais_keys(
    document: &Section,
    rows: &[RowConfig],
    taken: Option<Group>,
) -> Result<Option<AisConfig>, ConfigFault>
    ensures said { result ≡ table_in ais (rows.now, taken) (place_of document.now) }
    ensures valid { IfOk result (λ ais. ForSome ais (IsAisBeside rows.now taken)) }
{
    let table = section(document, AIS, AIS_PREFIX)?;
    let own = own_group(&table, GROUP, rows, &[taken], stands_at(&table, SLOTS))?;
    let slots = number_or(&table, SLOTS, 1, 256, 16)? as u16;
    match own {
        None => Ok(None),
        Some(group) => Ok(Some(AisConfig { group, slots })),
    }
}

/// The group of a part, which no row and no other part has. What else is said of the part asks for it.
pub(crate) fn own_group(
    section: &Section,
    name: &str,
    rows: &[RowConfig],
    parts: &[Option<Group>],
    asked: bool,
) -> Result<Option<Group>, ConfigFault>
    ensures said { result ≡ own_group rows.now parts.now asked (place_of section.now) name.now (text_at group_in (place_of section.now) name.now) }
    ensures valid { IfOk result (λ group. ForSome group (IsGroupBeside rows.now parts.now)) }
{
    match section.text::<Group>(name) {
        Err(fault) => Err(fault),
        Ok(None) => {
            if asked {
                section.required(name, None)
            } else {
                Ok(None)
            }
        }
        Ok(Some(group)) => {
            if is_taken(rows, parts, group) {
                Err(section.fault(name, Flaw::Twice))
            } else {
                Ok(Some(group))
            }
        }
    }
}

/// Whether something is sent to the group.
fn is_taken(rows: &[RowConfig], parts: &[Option<Group>], group: Group) -> bool
    ensures value { result ≡ is_taken rows.now parts.now group }
    ensures free { result ≡ false → IsGroupBeside rows.now parts.now group }
{
    have_group(rows, group) || have_part(parts, group)
}

fn have_group(rows: &[RowConfig], group: Group) -> bool
    ensures { result ≡ list_any (λ row. same_text row.group group) rows.now }
{
    rows.iter().any(|row| row.group == group)
}

fn have_part(parts: &[Option<Group>], group: Group) -> bool
    ensures { result ≡ list_any (is_group_of group) parts.now }
{
    parts.iter().any(|part| is_group_of(group, *part))
}

fn is_group_of(group: Group, part: Option<Group>) -> bool
    ensures { result ≡ is_group_of group part }
{
    match part {
        None => false,
        Some(taken) => taken == group,
    }
}

/// The group of joined sentences.
pub(crate) fn rmc_group(rmc: &Option<RmcConfig>) -> Option<Group>
    ensures { result ≡ option_map (λ r. r.group) rmc.now }
{
    match rmc {
        None => None,
        Some(rmc) => Some(rmc.group),
    }
}

/// The group of reports of ships around.
pub(crate) fn ais_group(ais: &Option<AisConfig>) -> Option<Group>
    ensures { result ≡ option_map (λ a. a.group) ais.now }
{
    match ais {
        None => None,
        Some(ais) => Some(ais.group),
    }
}
