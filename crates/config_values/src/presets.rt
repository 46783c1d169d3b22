//! The devices whose addresses are known before they claim.
ghost use Rattle.std.specs.Prelude.{◌↔◌, IsTrue};
ghost use Rattle.config_values.specs.Presets.{ArePresets};

use crate::lists::{Apart, Valid, are_apart, are_valid, is_apart_from};
use claim_table::Preset;
use n2k_id::Name;
use n2k_id::address::ADDRESSES;

/// Whether these can be the presets beside a gateway of this NAME and address.
pub(crate) fn are_presets(name: Name, address: u8, presets: &[Preset]) -> bool
    ensures { IsTrue result ↔ ArePresets name address presets.now }
{
    are_valid(presets) && are_apart(presets) && is_apart_from(&Preset { address, name }, presets)
}

impl Valid for Preset {
    ghost use Rattle.std.specs.Prelude.{◌<◌};
    ghost use Rattle.claim_table.specs.Claims.{places};

    ghost is_valid = { λ p. p.address < places };

    fn is_valid(&self) -> bool {
        usize::from(self.address) < ADDRESSES
    }
}

impl Apart for Preset {
    ghost use Rattle.config_values.specs.Presets.{AreApart};

    ghost are_apart = { AreApart };

    fn is_apart(&self, other: &Preset) -> bool {
        self.address != other.address && self.name != other.name
    }
}
