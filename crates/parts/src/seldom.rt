//! Parts that files seldom ask for.
ghost use Rattle.std.specs.Prelude.{◌≡◌, ◌≤◌, [], length};

use crate::part::Step;
use crate::parts::Parts;
use gate_events::Emit;
use plain_out::Voice;
use settings::Setup;
use std::alloc::{AllocError, Global};
use std::marker::Model;

/// Parts that files seldom ask for: where none is there, one look at an event tells so. They don't lie on the stack while others are made.
#[derive(Drop)]
pub struct Seldom<P: Parts> {
    parts: Box<P>,
    /// Whether one may be there.
    any: bool,
}

impl<P: Parts> Model for Seldom<P> {
    ghost use Rattle.std.specs.Prelude.{◌≡◌, false};
    ghost use Rattle.parts.specs.PartSteps.{IsAbsent};

    ghost Value = { P };

    ghost view = { λ x. x.parts.value };

    ghost invariant = { λ x. x.any ≡ false → IsAbsent P.stands P.gives P.utters P.output P.plain x.parts.value };
}

impl<P: Parts> Parts for Seldom<P> {
    ghost Rule = { P.Rule };

    ghost asked = { P.asked };

    ghost stands = { P.stands };

    ghost gives = { P.gives };

    ghost output = { P.output };

    ghost plain = { P.plain };

    ghost utters = { P.utters };

    ghost utterances = { P.utterances };

    ghost unsaid = { P.unsaid };

    ghost most = { P.most };

    #[inline(never)]
    fn made(alloc: Global, setup: &Setup) -> Result<Seldom<P>, AllocError> {
        let parts = P::made(alloc, setup)?;
        let any = !parts.is_absent();
        let parts = Box::new(alloc, parts)?;
        Ok(Seldom { parts, any })
    }

    fn is_absent(&self) -> bool {
        !self.any
    }

    fn clear(&mut self) {
        if self.any {
            self.parts.as_mut().clear();
        }
    }

    fn after(&mut self, step: &Step<'_>) -> bool {
        if self.any {
            self.parts.as_mut().after(step)
        } else {
            false
        }
    }

    fn say_plain(&mut self, voice: &mut Voice, moment: u64) {
        if self.any {
            self.parts.as_mut().say_plain(voice, moment);
        }
    }

    fn len(&self) -> usize {
        if self.any { self.parts.len() } else { 0 }
    }

    fn item(&self, place: usize) -> Option<Emit<'_>> {
        if self.any {
            self.parts.item(place)
        } else {
            None
        }
    }

    fn plain_len(&self) -> usize {
        if self.any { self.parts.plain_len() } else { 0 }
    }

    fn plain_item(&self, place: usize) -> Option<Emit<'_>> {
        if self.any {
            self.parts.plain_item(place)
        } else {
            None
        }
    }
}
