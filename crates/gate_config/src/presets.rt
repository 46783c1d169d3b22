//! The keys of each `preset`: devices whose addresses are known before they claim.
ghost use Rattle.std.specs.Prelude.{◌≡◌, ◌==◌, IfOk};
ghost use Rattle.std.specs.List.{list_any};
ghost use Rattle.config_document.specs.Places.{place_of};
ghost use Rattle.config_values.specs.Presets.{ArePresets};
ghost use Rattle.gate_config.specs.Beside.{IsPresetBeside};
ghost use Rattle.gate_config.specs.Keys.{address_stands, name_stands, preset};
ghost use Rattle.gate_config.specs.Reading.{items_in};

use crate::items::item_prefix;
use crate::keys::{needed_number, needed_text};
use crate::words::{ADDRESS, NAME, PRESET, PRESET_PREFIX};
use arrayvec::ArrayVec;
use claim_table::Preset;
use config_document::{ConfigFault, Flaw, Section};
use n2k_id::Name;

pub(crate) const KEYS: [&str; 2] = [ADDRESS, NAME];

/// How many presets there may be.
const MOST_PRESETS: usize = 253;

/// The presets beside the gateway's own address and NAME.
#[tactic(auto, using(crate::proofs::Beside::no_presets, crate::proofs::Beside::one_more_preset), unfolding(crate::specs::Keys::preset))]
pub(crate) fn preset_keys(
    document: &Section,
    own: &Preset,
) -> Result<ArrayVec<Preset, MOST_PRESETS>, ConfigFault>
    ensures said { result ≡ items_in preset 253 own.now (place_of document.now) }
    ensures valid { IfOk result (λ presets. ArePresets own.now.name own.now.address presets.items) }
{
    let values = document.tables_at(PRESET, MOST_PRESETS)?;
    let mut presets = ArrayVec::new();
    for value in values {
        let prefix = item_prefix(PRESET_PREFIX, presets.len() + 1);
        let section = Section {
            prefix: prefix.as_slice(),
            table: value.as_table(),
        };
        let preset = preset(&section, own, presets.as_slice())?;
        presets.push(preset);
    }
    Ok(presets)
}

/// A preset beside the gateway's own address and NAME, and those of the presets before it.
#[tactic(auto, using(crate::proofs::Beside::preset_beside), unfolding(crate::specs::Keys::preset, crate::specs::Reading::unless))]
fn preset(section: &Section, own: &Preset, earlier: &[Preset]) -> Result<Preset, ConfigFault>
    ensures said { result ≡ preset.read (own.now, earlier.now) (place_of section.now) }
    ensures valid { IfOk result (IsPresetBeside own.now earlier.now) }
{
    let place = needed_number(section, ADDRESS, 0, 253)? as u8;
    if address_stands(own, earlier, place) {
        return Err(section.fault(ADDRESS, Flaw::Twice));
    }
    let said = needed_text(section, NAME)?;
    if name_stands(own, earlier, said) {
        return Err(section.fault(NAME, Flaw::Twice));
    }
    Ok(Preset {
        address: place,
        name: said,
    })
}

/// Whether the address is the gateway's own or an earlier preset's.
fn address_stands(own: &Preset, earlier: &[Preset], address: u8) -> bool
    ensures { result ≡ address_stands own.now earlier.now address }
{
    own.address == address || have_address(earlier, address)
}

fn have_address(presets: &[Preset], address: u8) -> bool
    ensures { result ≡ list_any (λ p. p.address == address) presets.now }
{
    presets.iter().any(|preset| preset.address == address)
}

/// Whether the NAME is the gateway's own or an earlier preset's.
fn name_stands(own: &Preset, earlier: &[Preset], name: Name) -> bool
    ensures { result ≡ name_stands own.now earlier.now name }
{
    own.name.0 == name.0 || have_name(earlier, name.0)
}

fn have_name(presets: &[Preset], name: u64) -> bool
    ensures { result ≡ list_any (λ p. p.name.0 == name) presets.now }
{
    presets.iter().any(|preset| preset.name.0 == name)
}
