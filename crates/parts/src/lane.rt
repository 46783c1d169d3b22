//! A part with a place for what it gives.
ghost use Rattle.std.specs.Prelude.{◌≡◌, ◌≤◌, [], length, IfOk};
ghost use Rattle.parts.specs.Compose.{maybe_give, maybe_output, maybe_stand, maybe_unsaid};
ghost use Rattle.parts.specs.Lanes.{IsEmptyPlace, IsLane, lane_output, lane_stands};

use crate::part::{Part, Step};
use crate::parts::Parts;
use crate::place::Place;
use gate_events::Emit;
use plain_out::Voice;
use settings::Setup;
use std::alloc::{AllocError, Global};
use std::marker::Model;

/// A part with a place for what it gives at an event.
#[derive(Drop)]
pub struct Lane<P, E: Place> {
    part: P,
    /// Whether it gave something: most events give nothing, and then its place isn't looked at.
    gave: bool,
    place: Box<E>,
}

impl<P, E: Place> Model for Lane<P, E> {
    ghost use Rattle.std.specs.Prelude.{◌≡◌, false};
    ghost use Rattle.parts.specs.Lanes.{IsEmptyPlace, LaneKept};

    ghost Value = { LaneKept P E };

    ghost view = { λ l. record { part = l.part; place = l.place.value } };

    ghost invariant = { λ l. l.gave ≡ false → IsEmptyPlace E.output E.plain l.place.value };
}

impl<P: Part<E>, E: Place> Lane<P, E> {
    /// This part, which gave nothing yet.
    fn new(alloc: Global, part: P) -> Result<Lane<P, E>, AllocError>
        ensures { IfOk result (IsLane P.stands E.output E.plain part) }
    {
        let place = boxed(alloc)?;
        Ok(Lane {
            part,
            gave: false,
            place,
        })
    }
}

/// A place with nothing in it. Most of it is zeros, which are written where it lies: the stack doesn't have it while it is made.
#[inline(never)]
fn boxed<E: Place>(alloc: Global) -> Result<Box<E>, AllocError>
    ensures { IfOk result (λ b. IsEmptyPlace E.output E.plain b.value) }
{
    Ok(Box::new(alloc, E::new())?)
}

/// The part is there exactly if it is asked for.
impl<P: Part<E>, E: Place> Parts for Option<Lane<P, E>> {
    ghost use Rattle.std.specs.Prelude.{Option};

    ghost Rule = { Option P.Rule };

    ghost asked = { P.asked };

    ghost stands = { maybe_stand (lane_stands P.stands) };

    ghost gives = { maybe_give P.gives };

    ghost output = { maybe_output (lane_output E.output) };

    ghost plain = { maybe_output (lane_output E.plain) };

    ghost utters = { maybe_give P.utters };

    ghost utterances = { maybe_output (lane_output E.utterances) };

    ghost unsaid = { maybe_unsaid (lane_output E.output) (lane_output E.utterances) (λ k none. E.unsaid k.place none) };

    ghost most = { E.most };

    fn made(alloc: Global, setup: &Setup) -> Result<Option<Lane<P, E>>, AllocError> {
        match P::opened(alloc, setup)? {
            Some(part) => Ok(Some(Lane::new(alloc, part)?)),
            None => Ok(None),
        }
    }

    fn is_absent(&self) -> bool {
        self.is_none()
    }

    fn clear(&mut self) {
        if let Some(lane) = self {
            if lane.gave {
                lane.place.as_mut().clear();
                lane.gave = false;
            }
        }
    }

    fn after(&mut self, step: &Step<'_>) -> bool {
        match self {
            Some(lane) => {
                lane.gave = lane.part.after(step, lane.place.as_mut());
                lane.gave
            }
            None => false,
        }
    }

    fn say_plain(&mut self, voice: &mut Voice, moment: u64) {
        if let Some(lane) = self {
            if lane.gave {
                lane.place.as_mut().say_plain(voice, moment);
            }
        }
    }

    fn len(&self) -> usize {
        match self {
            Some(lane) if lane.gave => lane.place.len(),
            _ => 0,
        }
    }

    fn item(&self, place: usize) -> Option<Emit<'_>> {
        match self {
            Some(lane) if lane.gave => lane.place.item(place),
            _ => None,
        }
    }

    fn plain_len(&self) -> usize {
        match self {
            Some(lane) if lane.gave => lane.place.plain_len(),
            _ => 0,
        }
    }

    fn plain_item(&self, place: usize) -> Option<Emit<'_>> {
        match self {
            Some(lane) if lane.gave => lane.place.plain_item(place),
            _ => None,
        }
    }
}
