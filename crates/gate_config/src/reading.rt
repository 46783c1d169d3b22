//! A configuration, read from the bytes of its file.
ghost use Rattle.std.specs.Prelude.{◌≡◌, ◌⊎◌, Err, IfOk};
ghost use Rattle.config_document.specs.Places.{place_of};
ghost use Rattle.config_values.specs.Configs.{IsConfig};
ghost use Rattle.gate_config.specs.ConfigOf.{IsConfigAlone, IsConfigOf, IsWholeConfigOf, config_in};
ghost use Rattle.config_document.specs.declared.fault.ConfigFault.TheVariants.{Memory};
ghost use Rattle.settings.specs.Settings.{IsSettings};
ghost use Rattle.settings.specs.Setup.{IsSetup};

use crate::all::all_keys;
use crate::unknown::first_unknown;
use config_document::{ConfigFault, Section, key_of};
use config_values::Config;
use settings::{QuantityConfigs, Settings, Setup};
use std::alloc::Global;
use std::str;

/// All that a configuration file says, or the first thing that is wrong with it. Keys are read in their order. For each it is tried whether
/// it is missing, of another type, out of range or a repeat. Keys that aren't known come last.
pub fn read_whole(alloc: Global, bytes: &[u8]) -> Result<Setup, ConfigFault>
    // exactly the values or the fault that the definition gives, unless memory ran out
    ensures exact { (result ≡ Err Memory) ⊎ IsWholeConfigOf bytes.now result }
    // each value of them is in its range, and nothing stands twice that may stand only once
    ensures valid { IfOk result IsSetup }
{
    let text = match str::from_utf8(bytes) {
        Err(_) => return Err(ConfigFault::NotToml),
        Ok(text) => text,
    };
    match toml::table_from_str(alloc, text) {
        Err(error) => {
            if error.is_memory() {
                Err(ConfigFault::Memory)
            } else {
                Err(ConfigFault::NotToml)
            }
        }
        Ok(table) => accepted(
            alloc,
            &Section {
                prefix: b"",
                table: Some(&table),
            },
        ),
    }
}

/// The settings alone, which the same file says.
pub fn read_all(alloc: Global, bytes: &[u8]) -> Result<Settings, ConfigFault>
    // exactly the settings or the fault that the definition gives, unless memory ran out
    ensures exact { (result ≡ Err Memory) ⊎ IsConfigOf bytes.now result }
    ensures valid { IfOk result IsSettings }
{
    match read_whole(alloc, bytes) {
        Ok(setup) => Ok(setup.settings),
        Err(fault) => Err(fault),
    }
}

/// The configuration of the gateway alone, which the same file says.
pub fn read(alloc: Global, bytes: &[u8]) -> Result<Config, ConfigFault>
    // exactly the configuration or the fault that the definition gives, unless memory ran out
    ensures exact { (result ≡ Err Memory) ⊎ IsConfigAlone bytes.now result }
    ensures valid { IfOk result IsConfig }
{
    match read_all(alloc, bytes) {
        Ok(settings) => Ok(settings.config),
        Err(fault) => Err(fault),
    }
}

/// What a document says of which every key is known.
#[tactic(auto, unfolding(crate::specs::ConfigOf::config_in))]
fn accepted(alloc: Global, document: &Section) -> Result<Setup, ConfigFault>
    ensures exact { (result ≡ Err Memory) ⊎ (result ≡ config_in (place_of document.now)) }
    ensures valid { IfOk result IsSetup }
{
    let each = match QuantityConfigs::new(alloc) {
        Err(_) => return Err(ConfigFault::Memory),
        Ok(each) => each,
    };
    let setup = match all_keys(document, each) {
        Err(fault) => return Err(fault),
        Ok(setup) => setup,
    };
    match first_unknown(alloc, document) {
        Err(_) => Err(ConfigFault::Memory),
        Ok(None) => Ok(setup),
        Ok(Some(path)) => Err(ConfigFault::Unknown(key_of(path.as_slice(), b""))),
    }
}
