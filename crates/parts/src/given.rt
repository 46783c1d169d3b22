//! A place for frames and reports, and a datagram behind them, which has no stream.
ghost use Rattle.std.specs.Prelude.{◌≡◌, ◌≤◌, ◌+◌, [], length};
ghost use Rattle.gate_outbox.specs.Output.{most_datagrams};
ghost use Rattle.parts.specs.Lanes.{given_output, given_plain, given_unsaid, given_utterances};

use crate::place::Place;
use gate_events::Emit;
use gate_outbox::Emits;
use plain_out::{PlainEmits, Voice, say_plain};

/// At most `ROOM` frames and reports, a datagram behind them, and that once more as plain sentences.
#[derive(Drop)]
pub struct Given<const ROOM: usize> {
    pub emits: Emits<ROOM>,
    plain: PlainEmits,
}

impl<const ROOM: usize> Place for Given<ROOM> {
    ghost output = { given_output };

    ghost plain = { given_plain };

    ghost utterances = { given_utterances };

    ghost unsaid = { given_unsaid };

    ghost most = { ROOM + most_datagrams };

    fn new() -> Self {
        Given {
            emits: Emits::new(),
            plain: PlainEmits::new(),
        }
    }

    fn clear(&mut self) {
        self.emits.clear();
        self.plain.clear();
    }

    #[tactic(auto, using(crate::proofs::Empty::none_emitted))]
    fn say_plain(&mut self, voice: &mut Voice, moment: u64) {
        say_plain(voice, moment, None, &self.emits, &mut self.plain);
    }

    fn len(&self) -> usize {
        self.emits.len()
    }

    fn item(&self, place: usize) -> Option<Emit<'_>> {
        self.emits.item(place)
    }

    fn plain_len(&self) -> usize {
        self.plain.len()
    }

    fn plain_item(&self, place: usize) -> Option<Emit<'_>> {
        self.plain.item(place)
    }
}
