//! Lists of devices, by what is stated of their NAMEs.
ghost use Rattle.std.specs.Prelude.{◌≡◌, IfOk};
ghost use Rattle.config_document.specs.Places.{place_of};
ghost use Rattle.config_values.specs.Rows.{AreSources};
ghost use Rattle.gate_config.specs.Keys.{devices};

use arrayvec::ArrayVec;
use config_document::{ConfigFault, Flaw, Section, repeats};
use n2k_id::Pattern;

/// The devices at a key, none of them twice.
#[tactic(auto, unfolding(crate::specs::Reading::unless))]
pub(crate) fn devices(section: &Section, name: &str) -> Result<ArrayVec<Pattern, 16>, ConfigFault>
    ensures said { result ≡ devices (place_of section.now) name.now }
    ensures valid { IfOk result (λ devices. AreSources devices.items) }
{
    let devices = section.list::<Pattern, 16>(name)?;
    if repeats(devices.as_slice()) {
        return Err(section.fault(name, Flaw::Twice));
    }
    Ok(devices)
}
