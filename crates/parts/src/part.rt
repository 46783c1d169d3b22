//! A part beside the gateway.
ghost use Rattle.std.specs.Prelude.{◌≡◌, ℕ, false, List, [], Option, IfOk};
ghost use Rattle.gate_events.specs.Emit.{Emit};
ghost use Rattle.gate_core.specs.Steps.{IsEventValid};
ghost use Rattle.history.specs.Entries.{Entry, History};
ghost use Rattle.history.specs.Settings.{Settings};
ghost use Rattle.plain_out.specs.Pace.{Utterance};
ghost use Rattle.settings.specs.Setup.{IsSetup, gateway_of};
ghost use Rattle.settings.specs.declared.setup.Setup.{Setup};
ghost use Rattle.parts.specs.Compose.{maybe_stand};
ghost use Rattle.parts.specs.PartSteps.{IsOpened, Says, Utters};

use crate::place::Place;
use gate_core::{Gateway, Outbox};
use gate_events::Event;
use settings::Setup;
use std::alloc::{AllocError, Global};

/// An event that the gateway took in its last step.
#[derive(Drop)]
pub struct Step<'a> {
    /// The gateway after the step.
    pub gateway: &'a Gateway,
    /// What the step left: the message that it selected is there, too.
    pub outbox: &'a Outbox,
    pub event: &'a Event<'a>,
    /// The moment at which the gateway started, in microseconds.
    pub start: u64,
}

/// A part beside the gateway: it is told each event that the gateway took, and leaves what it gives in a place.
pub trait Part<E: Place>: Drop {
    /// By what it is configured.
    ghost Rule: { Type 0 };

    /// By what, if a file asks for it.
    ghost asked: { Setup → Option Rule };

    /// What it keeps stands for a history of a gateway of these settings since this start.
    ghost stands: { Rule → Settings → ℕ → History → Self → Type 0 };

    /// What it gives at an entry, over everything that ever came.
    ghost gives: { Rule → Settings → ℕ → History → Entry → List Emit };

    /// The datagrams of it, each with its stream.
    ghost utters: { Rule → Settings → ℕ → History → Entry → List Utterance };

    /// The part that a file asks for, with nothing heard yet; none if it doesn't.
    fn opened(alloc: Global, setup: &Setup) -> Result<Option<Self>, AllocError>
        requires { IsSetup setup.now }
        ensures { IfOk result (IsOpened (maybe_stand stands) (asked setup.now) (gateway_of setup.now)) };

    /// Takes an event. False: it gives nothing.
    fn after(&mut self, step: &Step<'_>, place: &mut E) -> bool
        requires valid { IsEventValid step.now.event.now }
        requires empty { E.output place.old ≡ [] }
        ensures takes { Says stands gives E.output step.now self.old self.new place.new }
        ensures said { Utters stands gives utters E.output E.utterances step.now self.old place.new }
        ensures unsaid { E.plain place.new ≡ E.plain place.old }
        ensures gave { result ≡ false → E.output place.new ≡ [] };
}
