//! What a step leaves to be sent and reported.
ghost use Rattle.std.specs.Prelude.{◌≡◌, ◌<◌, ◌↔◌, length, option_map, slice_get, IfSome, IsSome, Some};
ghost use Rattle.gate_events.specs.Emit.{CanWrite};
ghost use Rattle.readings.specs.Rows.{IsValid};
ghost use Rattle.gate_outbox.specs.Output.{IsDoneValid, IsOutput, nothing, emit_of, emits_of};

use crate::done::{Command, Done};
use crate::emits::{Emits, MOST_DATAGRAMS};
use gate_events::Emit;
use std::marker::Model;

/// The most emits of a step.
const MOST_EMITS: usize = 4096;

/// The most frames and reports of a step: its datagram finds room behind them.
pub const MOST_TOLD: usize = MOST_EMITS - MOST_DATAGRAMS;

/// The emits of a step: at most [`MOST_EMITS`], of which at most [`MOST_DATAGRAMS`] is a datagram.
pub type StepEmits = Emits<MOST_TOLD>;

/// What a step of the gateway leaves: its emits, the message that the step completed, whether the step selected it, and the command that
/// it gives.
#[derive(Drop)]
pub struct Outbox {
    pub emits: StepEmits,
    done: Option<Done>,
    /// Whether the step selected this message.
    selected: bool,
    command: Option<Command>,
}

impl Model for Outbox {
    ghost use Rattle.gate_outbox.specs.Output.{IsDoneValid, Output};

    ghost Value = { Output };

    ghost view = { λ o. record { emits = o.emits; done = o.done; selected = o.selected; command = o.command } };

    ghost invariant = { λ o. IsDoneValid o.done };
}

impl Outbox {
    /// An empty outbox.
    pub fn new() -> Outbox
        ensures { result ≡ nothing }
    {
        Outbox {
            emits: Emits::new(),
            done: None,
            selected: false,
            command: None,
        }
    }

    /// Empties the outbox.
    pub fn clear(&mut self)
        ensures { self.new ≡ nothing }
    {
        self.emits.clear();
        // None is written in all its bytes, and few steps complete a message.
        if self.done.is_some() {
            self.done = None;
        }
        self.selected = false;
        self.command = None;
    }

    /// How many emits there are.
    pub fn len(&self) -> usize
        ensures len { result ≡ length (emits_of self.now.emits) }
        ensures output { IsOutput self.now }
    {
        self.emits.len()
    }

    /// The emit at this place, from 0; None exactly beyond the list.
    pub fn item(&self, place: usize) -> Option<Emit<'_>>
        ensures emit { option_map emit_of result ≡ slice_get (emits_of self.now.emits) place }
        ensures beyond { IsSome result ↔ (place < length (emits_of self.now.emits)) }
        ensures valid { IfSome result CanWrite }
    {
        self.emits.item(place)
    }

    /// The message that the step completed.
    pub fn done(&self) -> Option<Done>
        ensures done { result ≡ self.now.done }
        ensures valid { IsDoneValid result }
    {
        self.done
    }

    /// Whether the step selected this message.
    pub fn selected(&self) -> bool
        ensures { result ≡ self.now.selected }
    {
        self.selected
    }

    /// The command that this message gives.
    pub fn command(&self) -> Option<Command>
        ensures { result ≡ self.now.command }
    {
        self.command
    }

    /// Notes the message that the step completed, and whether the step selected it.
    pub fn complete(&mut self, done: Done, selected: bool)
        requires { IfSome done.reading IsValid }
        ensures { self.new ≡ record self.old { done = Some done; selected = selected } }
    {
        self.done = Some(done);
        self.selected = selected;
    }

    /// Notes the command that this message gives.
    pub fn order(&mut self, command: Command)
        ensures { self.new ≡ record self.old { command = Some command } }
    {
        self.command = Some(command);
    }
}
