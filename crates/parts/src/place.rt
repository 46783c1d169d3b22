//! Places for what a part gives at an event.
ghost use Rattle.std.specs.Prelude.{◌≡◌, ◌≤◌, ℕ, List, [], length, option_map, slice_get, IfSome};
ghost use Rattle.gate_events.specs.Emit.{CanWrite, Emit};
ghost use Rattle.gate_outbox.specs.Output.{emit_of};
ghost use Rattle.plain_out.specs.Pace.{Utterance, said_all};
ghost use Rattle.parts.specs.PartSteps.{most_output};

use gate_events::Emit;
use plain_out::Voice;

/// A place for what a part gives at an event, and its datagrams once more as plain sentences.
pub trait Place: Drop {
    /// What was given, in the order in which it goes out.
    ghost output: { Self → List Emit };

    /// The datagrams of it once more, as plain sentences.
    ghost plain: { Self → List Emit };

    /// The datagrams of it, each with its stream.
    ghost utterances: { Self → List Utterance };

    /// Where nothing was given none is.
    ghost unsaid: { (x : Self) → output x ≡ [] → utterances x ≡ [] };

    /// The most emits of an event.
    ghost most: { ℕ };

    /// Nothing.
    fn new() -> Self
        ensures output { output result ≡ [] }
        ensures plain { plain result ≡ [] };

    /// Forgets all.
    fn clear(&mut self)
        ensures output { output self.new ≡ [] }
        ensures plain { plain self.new ≡ [] };

    /// Says the datagrams of this moment once more, as plain sentences, as far as the voice passes them on.
    fn say_plain(&mut self, voice: &mut Voice, moment: u64)
        requires { plain self.old ≡ [] }
        ensures output { output self.new ≡ output self.old }
        ensures said { utterances self.new ≡ utterances self.old }
        ensures plain { plain self.new ≡ (said_all voice.old moment (utterances self.old)).plain }
        ensures voice { voice.new ≡ (said_all voice.old moment (utterances self.old)).after };

    /// How many emits there are.
    fn len(&self) -> usize
        requires { most ≤ most_output }
        ensures len { result ≡ length (output self.now) }
        ensures few { length (output self.now) ≤ most };

    /// The emit at this place, from 0; None exactly beyond the list.
    fn item(&self, place: usize) -> Option<Emit<'_>>
        requires { most ≤ most_output }
        ensures emit { option_map emit_of result ≡ slice_get (output self.now) place }
        ensures valid { IfSome result CanWrite };

    /// How many plain datagrams there are.
    fn plain_len(&self) -> usize
        requires { most ≤ most_output }
        ensures len { result ≡ length (plain self.now) }
        ensures few { length (plain self.now) ≤ most };

    /// The plain datagram at this place, from 0; None exactly beyond the list.
    fn plain_item(&self, place: usize) -> Option<Emit<'_>>
        requires { most ≤ most_output }
        ensures emit { option_map emit_of result ≡ slice_get (plain self.now) place }
        ensures valid { IfSome result CanWrite };
}

impl<A: Place, B: Place> Place for (A, B) {
    ghost use Rattle.std.specs.Prelude.{◌+◌};
    ghost use Rattle.parts.specs.Compose.{both_output, both_unsaid};

    ghost output = { both_output A.output B.output };

    ghost plain = { both_output A.plain B.plain };

    ghost utterances = { both_output A.utterances B.utterances };

    ghost unsaid = { both_unsaid A.output B.output A.utterances B.utterances A.unsaid B.unsaid };

    ghost most = { A.most + B.most };

    fn new() -> Self {
        (A::new(), B::new())
    }

    fn clear(&mut self) {
        self.0.clear();
        self.1.clear();
    }

    #[tactic(auto, using(plain_out::proofs::Sayings::append_plain, plain_out::proofs::Sayings::append_after, crate::proofs::Empty::first_empty, crate::proofs::Empty::second_empty))]
    fn say_plain(&mut self, voice: &mut Voice, moment: u64) {
        self.0.say_plain(voice, moment);
        self.1.say_plain(voice, moment);
    }

    fn len(&self) -> usize {
        self.0.len() + self.1.len()
    }

    fn item(&self, place: usize) -> Option<Emit<'_>> {
        match place.checked_sub(self.0.len()) {
            None => self.0.item(place),
            Some(place) => self.1.item(place),
        }
    }

    fn plain_len(&self) -> usize {
        self.0.plain_len() + self.1.plain_len()
    }

    fn plain_item(&self, place: usize) -> Option<Emit<'_>> {
        match place.checked_sub(self.0.plain_len()) {
            None => self.0.plain_item(place),
            Some(place) => self.1.plain_item(place),
        }
    }
}
