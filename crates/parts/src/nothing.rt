//! The end of a list of parts.
ghost use Rattle.std.specs.Prelude.{◌≡◌, ◌≤◌, [], length, refl};

use crate::part::Step;
use crate::parts::Parts;
use gate_events::Emit;
use plain_out::Voice;
use settings::Setup;
use std::alloc::{AllocError, Global};

impl Parts for () {
    ghost Rule = { Unit {0} };

    ghost asked = { λ x. tt };

    ghost stands = { λ r c s h k. Unit {0} };

    ghost gives = { λ r c s h e. [] };

    ghost output = { λ k. [] };

    ghost plain = { λ k. [] };

    ghost utters = { λ r c s h e. [] };

    ghost utterances = { λ k. [] };

    ghost unsaid = { λ k none. refl };

    ghost most = { 0 };

    fn made(_alloc: Global, _setup: &Setup) -> Result<(), AllocError> {
        Ok(())
    }

    fn is_absent(&self) -> bool {
        true
    }

    fn clear(&mut self) {}

    fn after(&mut self, _step: &Step<'_>) -> bool {
        false
    }

    fn say_plain(&mut self, _voice: &mut Voice, _moment: u64) {}

    fn len(&self) -> usize {
        0
    }

    fn item(&self, _place: usize) -> Option<Emit<'_>> {
        None
    }

    fn plain_len(&self) -> usize {
        0
    }

    fn plain_item(&self, _place: usize) -> Option<Emit<'_>> {
        None
    }
}
