//! The reports of ships around as a part beside the gateway.
ghost use Rattle.std.specs.Prelude.{◌≡◌, IfOk};
ghost use Rattle.ais_bridge.specs.AisOut.{ais_out};
ghost use Rattle.ais_bridge.specs.AisPart.{ships_asked};
ghost use Rattle.ais_bridge.specs.Promises.{StandsAis};

use crate::bridge::{AisBridge, MOST_REPORTS};
use parts::{Given, Part, Step};
use settings::Setup;
use std::alloc::{AllocError, Global};

/// The place for the reports of ships around: as much as [`crate::AisEmits`] has room for.
pub type ShipsPlace = Given<MOST_REPORTS>;

impl Part<ShipsPlace> for AisBridge {
    ghost use Rattle.parts.specs.Utterances.{streamless};
    ghost use Rattle.settings.specs.declared.ais.AisConfig.{AisConfig};

    ghost Rule = { AisConfig };

    ghost asked = { ships_asked };

    ghost stands = { StandsAis };

    ghost gives = { ais_out };

    ghost utters = { streamless ais_out };

    fn opened(alloc: Global, setup: &Setup) -> Result<Option<AisBridge>, AllocError> {
        match &setup.settings.ais {
            Some(ais) => Ok(Some(AisBridge::new(alloc, ais, setup.settings.config.sfi)?)),
            None => Ok(None),
        }
    }

    #[tactic(auto, using(parts::proofs::Empty::none_emitted, std::proofs::lemmas::List::nil_from_length))]
    fn after(&mut self, step: &Step<'_>, place: &mut ShipsPlace) -> bool {
        self.after(step.gateway, step.event, &mut place.emits);
        place.emits.len() != 0
    }
}
