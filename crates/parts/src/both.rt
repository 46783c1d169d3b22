//! Parts, and others behind them.
ghost use Rattle.std.specs.Prelude.{◌≡◌, ◌+◌, ◌≤◌, ◌++◌, length};
ghost use Rattle.parts.specs.Compose.{both_asked, both_give, both_output, both_stand, both_unsaid};

use crate::part::Step;
use crate::parts::Parts;
use gate_events::Emit;
use plain_out::Voice;
use settings::Setup;
use std::alloc::{AllocError, Global};

impl<A: Parts, B: Parts> Parts for (A, B) {
    ghost Rule = { A.Rule × B.Rule };

    ghost asked = { both_asked A.asked B.asked };

    ghost stands = { both_stand A.stands B.stands };

    ghost gives = { both_give A.gives B.gives };

    ghost output = { both_output A.output B.output };

    ghost plain = { both_output A.plain B.plain };

    ghost utters = { both_give A.utters B.utters };

    ghost utterances = { both_output A.utterances B.utterances };

    ghost unsaid = { both_unsaid A.output B.output A.utterances B.utterances A.unsaid B.unsaid };

    ghost most = { A.most + B.most };

    fn made(alloc: Global, setup: &Setup) -> Result<(A, B), AllocError> {
        let first = A::made(alloc, setup)?;
        let second = B::made(alloc, setup)?;
        Ok((first, second))
    }

    #[tactic(auto, using(crate::proofs::Absent::both_absent))]
    fn is_absent(&self) -> bool {
        self.0.is_absent() && self.1.is_absent()
    }

    fn clear(&mut self) {
        self.0.clear();
        self.1.clear();
    }

    #[tactic(auto, using(crate::proofs::Empty::first_empty, crate::proofs::Empty::second_empty))]
    fn after(&mut self, step: &Step<'_>) -> bool {
        let first_gave = self.0.after(step);
        let second_gave = self.1.after(step);
        first_gave || second_gave
    }

    #[tactic(auto, using(plain_out::proofs::Sayings::append_plain, plain_out::proofs::Sayings::append_after, crate::proofs::Empty::first_empty, crate::proofs::Empty::second_empty))]
    fn say_plain(&mut self, voice: &mut Voice, moment: u64) {
        self.0.say_plain(voice, moment);
        self.1.say_plain(voice, moment);
    }

    fn len(&self) -> usize {
        self.0.len() + self.1.len()
    }

    fn item(&self, place: usize) -> Option<Emit<'_>> {
        match place.checked_sub(self.0.len()) {
            None => self.0.item(place),
            Some(place) => self.1.item(place),
        }
    }

    fn plain_len(&self) -> usize {
        self.0.plain_len() + self.1.plain_len()
    }

    fn plain_item(&self, place: usize) -> Option<Emit<'_>> {
        match place.checked_sub(self.0.plain_len()) {
            None => self.0.plain_item(place),
            Some(place) => self.1.plain_item(place),
        }
    }
}
