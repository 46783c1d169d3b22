//! Further quantities as a part beside the gateway.
ghost use Rattle.std.specs.Prelude.{◌≡◌, false, [], IfOk};
ghost use Rattle.gate_outbox.specs.Output.{emits_of};
ghost use Rattle.further_bridge.specs.FurtherOut.{further_out, further_utters};
ghost use Rattle.further_bridge.specs.FurtherPart.{quantities_asked};
ghost use Rattle.further_bridge.specs.Promises.{StandsFurther};

use crate::bridge::{FurtherBridge, MOST_REPORTS};
use gate_outbox::Emits;
use parts::{Part, Step, Streamed};
use readings::Row;
use settings::Setup;
use std::alloc::{AllocError, Global};

/// The place for further quantities: for what is told and the datagram of a message's first value, and behind it for those of the other values that
/// a message may have.
pub type QuantitiesPlace = (Streamed<MOST_REPORTS>, (Streamed<0>, Streamed<0>));

impl Part<QuantitiesPlace> for FurtherBridge {
    ghost use Rattle.further_bridge.specs.FurtherRule.{FurtherRule};

    ghost Rule = { FurtherRule };

    ghost asked = { quantities_asked };

    ghost stands = { StandsFurther };

    ghost gives = { further_out };

    ghost utters = { further_utters };

    fn opened(alloc: Global, setup: &Setup) -> Result<Option<FurtherBridge>, AllocError> {
        let config = &setup.settings.config;
        let water = config.rows[Row::WaterTemperature as usize].timeout_ms;
        match &setup.quantities {
            Some(quantities) => Ok(Some(FurtherBridge::new(
                alloc,
                quantities,
                &setup.ignore,
                config.sfi,
                water,
            )?)),
            None => Ok(None),
        }
    }

    #[tactic(auto, using(parts::proofs::Empty::first_empty, parts::proofs::Empty::second_empty, parts::proofs::Empty::none_emitted))]
    fn after(&mut self, step: &Step<'_>, place: &mut QuantitiesPlace) -> bool {
        let said = self.after(
            step.gateway,
            step.outbox,
            step.event,
            &mut place.0.emits,
            &mut place.1.0.emits,
            &mut place.1.1.emits,
        );
        match said {
            Some(streams) => {
                place.0.stream = streams.first;
                place.1.0.stream = streams.second;
                place.1.1.stream = streams.third;
                gives(&place.0.emits) || gives(&place.1.0.emits) || gives(&place.1.1.emits)
            }
            None => {
                place.0.stream = None;
                gives(&place.0.emits)
            }
        }
    }
}

/// Whether there is anything to emit.
#[tactic(auto, using(std::proofs::lemmas::List::nil_from_length))]
fn gives<const ROOM: usize>(emits: &Emits<ROOM>) -> bool
    ensures { result ≡ false → emits_of emits.now ≡ [] }
{
    emits.len() != 0
}
