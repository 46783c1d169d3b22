//! Who holds which address of the bus, and how many entries there were.
ghost use Rattle.std.specs.Prelude.{◌≡◌, ◌<◌, All, IfOk};
ghost use Rattle.claim_table.specs.Claims.{claim, claim_of, command, is_obeyed, move_places, places, started, claims_at_start};
ghost use Rattle.gate_model.specs.Addresses.{counted, no_change};
ghost use Rattle.gate_core.specs.Changes.{changed_of};

use claim_table::{ClaimFault, ClaimStep, ClaimTable, Preset};
use n2k_id::Name;
use std::alloc::Global;
use std::marker::Model;

/// The addresses that an entry took from others: the one that a NAME left for another, and the one that was won from another NAME.
#[derive(Clone, Copy)]
pub(crate) struct Changed {
    pub(crate) left: Option<u8>,
    pub(crate) won: Option<u8>,
}

impl Changed {
    /// An entry that takes no address from another device.
    pub(crate) const NONE: Changed = Changed {
        left: None,
        won: None,
    };
}

/// The addresses of the bus, with the index of the next entry, and which of them changed hands by the last one.
#[derive(Drop)]
pub(crate) struct Addresses {
    claims: ClaimTable,
    count: u64,
    changed: Changed,
}

impl Model for Addresses {
    ghost use Rattle.std.specs.Prelude.{All};
    ghost use Rattle.claim_table.specs.Claims.{IsSinceBy};
    ghost use Rattle.gate_model.specs.Addresses.{AddressesKept};
    ghost use Rattle.gate_core.specs.Changes.{changed_of};

    ghost Value = { AddressesKept };

    ghost view = { λ a. record { claims = a.claims; count = a.count; changed = changed_of a.changed } };

    ghost invariant = { λ a. All (IsSinceBy a.count) a.claims.holders };
}

impl Addresses {
    /// The addresses before the first entry: each preset holds its own, and the gateway has the preferred one.
    pub(crate) fn new(
        alloc: Global,
        name: Name,
        preferred: u8,
        presets: &[Preset],
    ) -> Result<Addresses, ClaimFault>
        requires preferred { preferred < move_places }
        requires presets { All (λ p. p.address < places) presets.now }
        ensures { IfOk result (λ a. a ≡ record { claims = claims_at_start name.0 preferred presets.now; count = 0; changed = no_change }) }
    {
        let claims = ClaimTable::new(alloc, name, preferred, presets)?;
        Ok(Addresses {
            claims,
            count: 0,
            changed: Changed::NONE,
        })
    }

    /// Sets the moment from which readiness is counted.
    pub(crate) fn start(&mut self, moment: u64)
        ensures { self.new ≡ record self.old { claims = started self.old.claims moment } }
    {
        self.claims.start(moment);
    }

    /// One more entry has come, by which these addresses changed hands.
    #[tactic(auto, using(crate::proofs::Dates::later), unfolding(gate_model::specs::Addresses::last_index))]
    pub(crate) fn count_entry(&mut self, changed: Changed)
        ensures { self.new ≡ record self.old { count = counted self.old.count; changed = changed_of changed } }
    {
        self.count = self.count.saturating_add(1);
        self.changed = changed;
    }

    /// Which addresses changed hands by the last entry.
    pub(crate) fn changed(&self) -> Changed
        ensures { changed_of result ≡ self.now.changed }
    {
        self.changed
    }

    /// The claim of an address, or of none (254), by a NAME at a moment.
    pub(crate) fn claim(&mut self, address: u8, name: Name, moment: u64) -> ClaimStep
        requires { address < 255 }
        ensures after { self.new ≡ record self.old { claims = (claim self.old.claims (claim_of address name.0 self.old.count moment)).after } }
        ensures step { result ≡ (claim self.old.claims (claim_of address name.0 self.old.count moment)).step }
    {
        self.claims.claim(address, name, self.count, moment)
    }

    /// A command to go to an address: whether it is obeyed.
    pub(crate) fn command(&mut self, address: u8, moment: u64) -> bool
        ensures after { self.new ≡ record self.old { claims = command self.old.claims address moment } }
        ensures obeyed { result ≡ is_obeyed self.old.claims address }
    {
        self.claims.command(address, moment)
    }

    /// Who holds which address.
    pub(crate) fn claims(&self) -> &ClaimTable
        ensures { result.now ≡ self.now.claims }
    {
        &self.claims
    }
}
