//! Numbers as if they were drawn by lot, which a seed gives.
ghost use Rattle.std.specs.Prelude.{◌≡◌, ◌<◌, ◌%◌, ◌^◌};
ghost use Rattle.demo.specs.Numbers.{next_state, number_in};

use std::marker::Model;

/// What the state is multiplied by, and what is added then.
const FACTOR: u128 = 6_364_136_223_846_793_005;

const STEP: u128 = 1_442_695_040_888_963_407;

/// States are counted modulo this.
const STATES: u128 = 1 << 64;

/// Each state gives a number, and the next state.
#[derive(Drop)]
pub(crate) struct Numbers {
    state: u64,
}

impl Model for Numbers {
    ghost use Rattle.std.specs.Prelude.{ℕ};

    ghost Value = { ℕ };

    ghost view = { λ n. n.state };
}

impl Numbers {
    /// The seed is the first state.
    pub(crate) fn new(seed: u64) -> Numbers
        ensures { result ≡ seed }
    {
        Numbers { state: seed }
    }

    /// Moves on to the next state, and gives its number modulo `end`.
    #[tactic(auto, unfolding(crate::specs::Numbers::number_in))]
    pub(crate) fn below(&mut self, end: u16) -> u16
        requires { 0 < end }
        ensures state { self.new ≡ next_state self.old }
        ensures number { result ≡ number_in self.new % end }
    {
        self.state = next_state(self.state);
        ((self.state >> 33) % u64::from(end)) as u16
    }
}

#[tactic(auto, unfolding(crate::specs::Numbers::next_state))]
fn next_state(state: u64) -> u64
    ensures { result ≡ next_state state }
{
    ((u128::from(state) * FACTOR + STEP) % STATES) as u64
}
