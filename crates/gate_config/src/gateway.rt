//! The gateway's own keys.
ghost use Rattle.std.specs.Prelude.{◌≡◌, ◌<◌, IfOk};
ghost use Rattle.std.specs.Int.{IsInRange};
ghost use Rattle.config_document.specs.Places.{place_of};
ghost use Rattle.gate_config.specs.Keys.{gateway, names, slots};
ghost use Rattle.gate_config.specs.Reading.{table_in};

use crate::keys::{needed_number, needed_text, number_or, section, text_or, truth_or};
use crate::words::{
    ADDRESS, FAST_SLOTS, GATEWAY, GATEWAY_PREFIX, GROUP, GROUP_SLOTS, ISO_SLOTS, NAME, SFI, THS,
};
use config_document::{ConfigFault, Section};
use n2k_id::Name;
use sentence_text::{Group, Sfi};

pub(crate) const KEYS: [&str; 8] = [
    NAME,
    ADDRESS,
    SFI,
    GROUP,
    FAST_SLOTS,
    ISO_SLOTS,
    GROUP_SLOTS,
    THS,
];

/// What the keys of `gateway` say.
#[derive(Drop)]
pub(crate) struct Own {
    pub(crate) name: Name,
    pub(crate) address: u8,
    pub(crate) sfi: Sfi,
    pub(crate) group: Group,
    pub(crate) fast_slots: u16,
    pub(crate) iso_slots: u16,
    pub(crate) group_slots: u16,
    pub(crate) ths: bool,
}

#[tactic(auto, unfolding(crate::specs::Keys::gateway))]
pub(crate) fn gateway_keys(document: &Section) -> Result<Own, ConfigFault>
    ensures said { result ≡ table_in gateway tt (place_of document.now) }
    ensures valid { IfOk result (λ own. (own.address < 252) × IsInRange 1 256 own.fast_slots × IsInRange 1 32 own.iso_slots × IsInRange 1 32 own.group_slots) }
{
    let table = section(document, GATEWAY, GATEWAY_PREFIX)?;
    let (name, address, sfi) = name_keys(&table)?;
    let group = text_or(&table, GROUP, Group::default())?;
    let (fast_slots, iso_slots, group_slots) = slot_keys(&table)?;
    let ths = truth_or(&table, THS, false)?;
    Ok(Own {
        name,
        address,
        sfi,
        group,
        fast_slots,
        iso_slots,
        group_slots,
        ths,
    })
}

/// Its NAME, the address that it begins with, and how it is called on the network.
#[tactic(auto, unfolding(crate::specs::Keys::names))]
fn name_keys(table: &Section) -> Result<(Name, u8, Sfi), ConfigFault>
    ensures said { result ≡ names.read tt (place_of table.now) }
    ensures address { IfOk result (λ names. names.1 < 252) }
{
    let name = needed_text(table, NAME)?;
    let address = needed_number(table, ADDRESS, 0, 251)? as u8;
    let sfi = needed_text(table, SFI)?;
    Ok((name, address, sfi))
}

/// How many fast packets, sessions and groups of lines may be in the making.
#[tactic(auto, unfolding(crate::specs::Keys::slots))]
fn slot_keys(table: &Section) -> Result<(u16, u16, u16), ConfigFault>
    ensures said { result ≡ slots.read tt (place_of table.now) }
    ensures valid { IfOk result (λ s. IsInRange 1 256 s.0 × IsInRange 1 32 s.1 × IsInRange 1 32 s.2) }
{
    let fast = number_or(table, FAST_SLOTS, 1, 256, 64)? as u16;
    let iso = number_or(table, ISO_SLOTS, 1, 32, 8)? as u16;
    let group = number_or(table, GROUP_SLOTS, 1, 32, 8)? as u16;
    Ok((fast, iso, group))
}
