//! Parts beside the gateway, put together.
ghost use Rattle.std.specs.Prelude.{◌≡◌, ◌≤◌, ℕ, false, true, List, [], length, option_map, slice_get, IfOk, IfSome};
ghost use Rattle.gate_events.specs.Emit.{CanWrite, Emit};
ghost use Rattle.gate_outbox.specs.Output.{emit_of};
ghost use Rattle.gate_core.specs.Steps.{IsEventValid};
ghost use Rattle.history.specs.Entries.{Entry, History};
ghost use Rattle.history.specs.Settings.{Settings};
ghost use Rattle.plain_out.specs.Pace.{Utterance, said_all};
ghost use Rattle.settings.specs.Setup.{IsSetup, gateway_of};
ghost use Rattle.settings.specs.declared.setup.Setup.{Setup};
ghost use Rattle.parts.specs.PartSteps.{AreNew, IsAbsent, Keeps, Takes, most_output};

use crate::part::Step;
use gate_events::Emit;
use plain_out::Voice;
use settings::Setup;
use std::alloc::{AllocError, Global};

/// Parts that keep what they gave at the last event, those of each behind those of the one before.
pub trait Parts: Drop {
    /// By what they are configured.
    ghost Rule: { Type 0 };

    /// By what a file asks for them.
    ghost asked: { Setup → Rule };

    /// What they keep stands for a history of a gateway of these settings since this start.
    ghost stands: { Rule → Settings → ℕ → History → Self → Type 0 };

    /// What they give at an entry, over everything that ever came.
    ghost gives: { Rule → Settings → ℕ → History → Entry → List Emit };

    /// What they gave at the last event, in its order.
    ghost output: { Self → List Emit };

    /// The datagrams of it once more, as plain sentences.
    ghost plain: { Self → List Emit };

    /// What they say on the network at an entry, each datagram with its stream.
    ghost utters: { Rule → Settings → ℕ → History → Entry → List Utterance };

    /// The datagrams of the last event, each with its stream.
    ghost utterances: { Self → List Utterance };

    /// Where they gave nothing none is.
    ghost unsaid: { (x : Self) → output x ≡ [] → utterances x ≡ [] };

    /// The most emits of an event.
    ghost most: { ℕ };

    /// Those that a file asks for, with nothing heard yet.
    fn made(alloc: Global, setup: &Setup) -> Result<Self, AllocError>
        requires { IsSetup setup.now }
        ensures { IfOk result (AreNew stands output plain (asked setup.now) (gateway_of setup.now)) };

    /// True: none is there, and none gave anything.
    fn is_absent(&self) -> bool
        ensures { result ≡ true → IsAbsent stands gives utters output plain self.now };

    /// Forgets what they gave.
    fn clear(&mut self)
        ensures kept { Keeps stands self.old self.new }
        ensures output { output self.new ≡ [] }
        ensures plain { plain self.new ≡ [] };

    /// Takes an event. Says whether any part gave something: if none did, nobody has to ask each.
    fn after(&mut self, step: &Step<'_>) -> bool
        requires valid { IsEventValid step.now.event.now }
        requires empty { output self.old ≡ [] }
        requires unsaid { plain self.old ≡ [] }
        ensures takes { Takes stands gives utters output utterances step.now self.old self.new }
        ensures unsaid { plain self.new ≡ [] }
        ensures gave { result ≡ false → output self.new ≡ [] };

    /// Says the datagrams of the last event, which was at this moment, once more, as plain sentences, as far as the voice passes them on.
    fn say_plain(&mut self, voice: &mut Voice, moment: u64)
        requires { plain self.old ≡ [] }
        ensures kept { Keeps stands self.old self.new }
        ensures output { output self.new ≡ output self.old }
        ensures said { utterances self.new ≡ utterances self.old }
        ensures plain { plain self.new ≡ (said_all voice.old moment (utterances self.old)).plain }
        ensures voice { voice.new ≡ (said_all voice.old moment (utterances self.old)).after };

    /// How many emits they gave at the last event.
    fn len(&self) -> usize
        requires { most ≤ most_output }
        ensures len { result ≡ length (output self.now) }
        ensures few { length (output self.now) ≤ most };

    /// The emit at this place of those that they gave at the last event, from 0; None exactly beyond the list.
    fn item(&self, place: usize) -> Option<Emit<'_>>
        requires { most ≤ most_output }
        ensures emit { option_map emit_of result ≡ slice_get (output self.now) place }
        ensures valid { IfSome result CanWrite };

    /// How many plain datagrams there are.
    fn plain_len(&self) -> usize
        requires { most ≤ most_output }
        ensures len { result ≡ length (plain self.now) }
        ensures few { length (plain self.now) ≤ most };

    /// The plain datagram at this place, from 0; None exactly beyond the list.
    fn plain_item(&self, place: usize) -> Option<Emit<'_>>
        requires { most ≤ most_output }
        ensures emit { option_map emit_of result ≡ slice_get (plain self.now) place }
        ensures valid { IfSome result CanWrite };
}
