//! Joined headings as a part beside the gateway.
ghost use Rattle.std.specs.Prelude.{◌≡◌, false, [], IfOk};
ghost use Rattle.gate_outbox.specs.Output.{emits_of};
ghost use Rattle.joined_heading.specs.HeadingOut.{heading_out, heading_utters};
ghost use Rattle.joined_heading.specs.HeadingPart.{heading_asked};
ghost use Rattle.joined_heading.specs.Promises.{StandsHeading};

use crate::joined_heading::{JoinedHeading, MOST_REPORTS};
use parts::{Part, Step, Stream, Streamed};
use readings::Row;
use settings::Setup;
use std::alloc::{AllocError, Global};

/// The place for joined headings: for what is told, and a datagram behind it, which is of their stream.
pub type HeadingPlace = Streamed<MOST_REPORTS>;

impl Part<HeadingPlace> for JoinedHeading {
    ghost use Rattle.joined_heading.specs.HeadingRule.{HeadingRule};

    ghost Rule = { HeadingRule };

    ghost asked = { heading_asked };

    ghost stands = { StandsHeading };

    ghost gives = { heading_out };

    ghost utters = { heading_utters };

    fn opened(alloc: Global, setup: &Setup) -> Result<Option<JoinedHeading>, AllocError> {
        let config = &setup.settings.config;
        let measured = config.rows[Row::HeadingTrue as usize].timeout_ms;
        match &setup.heading {
            Some(heading) => Ok(Some(JoinedHeading::new(
                alloc,
                heading,
                &setup.ignore,
                config.sfi,
                measured,
            )?)),
            None => Ok(None),
        }
    }

    #[tactic(auto, using(parts::proofs::Empty::none_emitted, std::proofs::lemmas::List::nil_from_length))]
    fn after(&mut self, step: &Step<'_>, place: &mut HeadingPlace) -> bool {
        place.stream = Some(Stream::JoinedHeading);
        self.after(step.gateway, step.outbox, step.event, &mut place.emits);
        place.emits.len() != 0
    }
}
