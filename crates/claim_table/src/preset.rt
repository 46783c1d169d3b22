ghost use Rattle.std.specs.Prelude.{◌≡◌, ◌<◌, All, IfOk, None, length, replicate};
ghost use Rattle.claim_table.specs.Claims.{places, with_presets};
ghost use Rattle.std.specs.List.{list_any};

use crate::answer::Holder;
use n2k_id::Name;
use n2k_id::address::ADDRESSES;
use std::alloc::{AllocError, Global};

/// A device whose address is known before it claims.
#[derive(Clone, Copy, Default)]
pub struct Preset {
    /// 0 to 253.
    pub address: u8,
    pub name: Name,
}

impl Preset {
    ghost use Rattle.claim_table.specs.Claims.{repeats, shares, takes};

    /// Whether two of them share an address or a NAME.
    #[tactic(auto, using(crate::proofs::PresetLemmas::repeats_shared, crate::proofs::PresetLemmas::repeats_further, crate::proofs::PresetLemmas::repeats_end))]
    pub(crate) fn repeat(presets: &[Preset]) -> bool
        ensures { result ≡ repeats presets.now }
    {
        for (place, preset) in presets.iter().enumerate() {
            if preset.shares_any(&presets[place + 1..]) {
                return true;
            }
        }
        false
    }

    /// Whether one of them has this NAME or this address.
    pub(crate) fn take(presets: &[Preset], name: Name, address: u8) -> bool
        ensures { result ≡ takes name.0 address presets.now }
    {
        presets
            .iter()
            .any(|preset| preset.address == address || preset.name == name)
    }

    fn shares_any(&self, others: &[Preset]) -> bool
        ensures { result ≡ list_any (shares self.now) others.now }
    {
        others.iter().any(|other| self.shares(other))
    }

    fn shares(&self, other: &Preset) -> bool
        ensures { result ≡ shares self.now other.now }
    {
        self.address == other.address || self.name == other.name
    }
}

/// The presets, each at its address.
pub(crate) fn placed(alloc: Global, presets: &[Preset]) -> Result<Vec<Option<Holder>>, AllocError>
    requires { All (λ p. p.address < places) presets.now }
    ensures holders { IfOk result (λ holders. holders.items ≡ with_presets (replicate places None) presets.now) }
    ensures room { IfOk result (λ holders. length holders.items ≡ places) }
{
    let mut holders = vec![in alloc; None; ADDRESSES]?;
    for preset in presets {
        holders[usize::from(preset.address)] = Some(Holder {
            name: preset.name,
            since: 0,
        });
    }
    Ok(holders)
}
