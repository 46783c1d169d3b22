//! A place for frames and reports, and a datagram of a stream behind them.
ghost use Rattle.std.specs.Prelude.{◌≡◌, ◌≤◌, ◌+◌, [], length};
ghost use Rattle.gate_outbox.specs.Output.{most_datagrams};
ghost use Rattle.parts.specs.Lanes.{streamed_output, streamed_plain, streamed_unsaid, streamed_utterances};

use crate::place::Place;
use gate_events::Emit;
use gate_outbox::Emits;
use plain_out::{PlainEmits, Stream, Voice, say_plain};

/// At most `ROOM` frames and reports, a datagram behind them, and that once more as plain sentences.
#[derive(Drop)]
pub struct Streamed<const ROOM: usize> {
    pub emits: Emits<ROOM>,
    /// The stream of the datagram: plain sentences pause by it.
    pub stream: Option<Stream>,
    plain: PlainEmits,
}

impl<const ROOM: usize> Place for Streamed<ROOM> {
    ghost output = { streamed_output };

    ghost plain = { streamed_plain };

    ghost utterances = { streamed_utterances };

    ghost unsaid = { streamed_unsaid };

    ghost most = { ROOM + most_datagrams };

    fn new() -> Self {
        Streamed {
            emits: Emits::new(),
            stream: None,
            plain: PlainEmits::new(),
        }
    }

    fn clear(&mut self) {
        self.emits.clear();
        self.plain.clear();
    }

    #[tactic(auto, using(crate::proofs::Empty::none_emitted))]
    fn say_plain(&mut self, voice: &mut Voice, moment: u64) {
        say_plain(voice, moment, self.stream, &self.emits, &mut self.plain);
    }

    fn len(&self) -> usize {
        self.emits.len()
    }

    fn item(&self, place: usize) -> Option<Emit<'_>> {
        self.emits.item(place)
    }

    fn plain_len(&self) -> usize {
        self.plain.len()
    }

    fn plain_item(&self, place: usize) -> Option<Emit<'_>> {
        self.plain.item(place)
    }
}
