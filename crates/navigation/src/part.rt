//! The legs of plotters as a part beside the gateway.
ghost use Rattle.std.specs.Prelude.{◌≡◌, false, [], IfOk};
ghost use Rattle.gate_outbox.specs.Output.{emits_of};
ghost use Rattle.navigation.specs.NavOut.{nav_out};
ghost use Rattle.navigation.specs.NavPart.{nav_asked};
ghost use Rattle.navigation.specs.Promises.{StandsNav};

use crate::navigation::{MOST_REPORTS, Navigation};
use parts::{Given, Part, Step};
use settings::Setup;
use std::alloc::{AllocError, Global};

/// The place for legs: as much as [`crate::NavEmits`] has room for. Its datagram is of no stream, so that it is never held back.
pub type NavPlace = Given<MOST_REPORTS>;

impl Part<NavPlace> for Navigation {
    ghost use Rattle.parts.specs.Utterances.{streamless};
    ghost use Rattle.navigation.specs.NavRule.{NavRule};

    ghost Rule = { NavRule };

    ghost asked = { nav_asked };

    ghost stands = { StandsNav };

    ghost gives = { nav_out };

    ghost utters = { streamless nav_out };

    fn opened(alloc: Global, setup: &Setup) -> Result<Option<Navigation>, AllocError> {
        match &setup.nav {
            Some(nav) => Ok(Some(Navigation::new(
                alloc,
                nav,
                &setup.ignore,
                setup.settings.config.sfi,
            )?)),
            None => Ok(None),
        }
    }

    #[tactic(auto, using(parts::proofs::Empty::none_emitted, std::proofs::lemmas::List::nil_from_length))]
    fn after(&mut self, step: &Step<'_>, place: &mut NavPlace) -> bool {
        self.after(step.gateway, step.event, &mut place.emits);
        place.emits.len() != 0
    }
}
