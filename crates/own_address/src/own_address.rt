//! The gateway's own address as a part beside it.
ghost use Rattle.std.specs.Prelude.{◌≡◌, IfOk};
ghost use Rattle.history.specs.Settings.{Settings};
ghost use Rattle.own_address.specs.AddressOut.{address_asked, address_gives, address_stands, opening_stands};

use gate_events::{Detail, Report};
use parts::{Given, Part, Step};
use report_rules::OWN_ADDRESS;
use settings::Setup;
use std::alloc::{AllocError, Global};

/// The place for a report of a change.
pub type AddressPlace = Given<1>;

/// The gateway's own address at the last event.
#[derive(Drop)]
pub struct OwnAddress {
    address: Option<u8>,
}

impl OwnAddress {
    /// The address with which a gateway starts.
    #[tactic(auto, unfolding(claim_table::specs::Claims::claims_at_start))]
    fn new(address: u8) -> OwnAddress
        ensures { (c : Settings) → c.address ≡ address → opening_stands c result }
    {
        OwnAddress {
            address: Some(address),
        }
    }
}

impl Part<AddressPlace> for OwnAddress {
    ghost use Rattle.parts.specs.Utterances.{streamless};

    ghost Rule = { Unit {0} };

    ghost asked = { address_asked };

    ghost stands = { address_stands };

    ghost gives = { address_gives };

    ghost utters = { streamless address_gives };

    fn opened(_alloc: Global, setup: &Setup) -> Result<Option<OwnAddress>, AllocError> {
        if setup.address {
            Ok(Some(OwnAddress::new(setup.settings.config.address)))
        } else {
            Ok(None)
        }
    }

    #[tactic(auto, using(parts::proofs::Empty::none_emitted))]
    fn after(&mut self, step: &Step<'_>, place: &mut AddressPlace) -> bool {
        let address = step.gateway.own();
        let before = self.address;
        self.address = address;
        if address == before {
            return false;
        }
        place.emits.tell(Report {
            rule: OWN_ADDRESS,
            detail: Detail::Own { address },
        });
        true
    }
}
