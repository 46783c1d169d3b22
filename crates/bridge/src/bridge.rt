//! The gateway with the parts beside it.
ghost use Rattle.std.specs.Prelude.{◌≡◌, [], true, false, length, option_map, slice_get, nat_le, IfOk, IfSome};
ghost use Rattle.gate_events.specs.Emit.{CanWrite};
ghost use Rattle.gate_outbox.specs.Output.{emit_of, emits_of, no_emits};
ghost use Rattle.plain_out.specs.Pace.{said_all};
ghost use Rattle.gate_core.specs.Steps.{IsEventValid, entry_of};
ghost use Rattle.history.specs.Entries.{moment_of};
ghost use Rattle.settings.specs.Settings.{IsSettings};
ghost use Rattle.settings.specs.Setup.{IsSetup, alone};
ghost use Rattle.bridge.specs.Beside.{beside_plain};
ghost use Rattle.bridge.specs.BridgeStands.{IsBesideStep, IsBridgeStep, IsForgotten, IsGatewayStep, IsNew, IsObeyed, IsOrder, IsOwnStream, IsSaidAgain, IsStart, IsUnposted};
ghost use Rattle.bridge.specs.Gate.{own_uttered, voice_by};
ghost use Rattle.bridge.specs.Kept.{IsAlone, no_output, output_of};
ghost use Rattle.bridge.specs.BridgeSettings.{bridge_settings_of};

use crate::beside::Beside;
use crate::call_output::{CallOutput, emit_in, len_in};
use crate::replaced::Replaced;
use gate_core::{Command, Gateway, Outbox, moment_of};
use gate_events::{Emit, Event};
use parts::{Parts, SelectedMessage, Step};
use plain_out::{Stream, Voice, say_plain};
use settings::{Settings, Setup};
use std::alloc::{AllocError, Global};
use std::marker::Model;

/// The gateway with the parts beside it, and all that its last call left.
#[derive(Drop)]
pub struct Bridge {
    gateway: Gateway,
    started: bool,
    /// The moment at which it started.
    start: u64,
    parts: Beside,
    /// Who says plain sentences.
    plain: Option<Voice>,
    /// The rows that plain sentences lack, since what a part says stands in their place.
    replaced: Replaced,
    /// Whether what comes is written down.
    records: bool,
    /// Whether the last call may have given more than the gateway itself emits. Most give no more, and then no part is asked for its output.
    gave: bool,
    /// Most of all that is kept, and so not on the stack.
    output: Box<CallOutput>,
}

impl Model for Bridge {
    ghost use Rattle.std.specs.Prelude.{◌≡◌, false};
    ghost use Rattle.gate_model.specs.Machine.{opened_machine};
    ghost use Rattle.bridge.specs.Kept.{Bridged, MayGive};

    ghost Value = { Bridged };

    ghost view = { λ b. record {
      started = b.started;
      start = b.start;
      gateway = b.gateway;
      parts = b.parts;
      plain = b.plain;
      replaced = b.replaced;
      records = b.records;
      output = b.output.value;
    } };

    ghost invariant = { λ b. (b.started ≡ false → b.gateway ≡ opened_machine b.gateway.settings) × MayGive b.gave b.output.value b.parts };
}

impl Bridge {
    /// A bridge of a copy of these settings, with nothing that further keys ask for, before it starts.
    pub fn new(alloc: Global, settings: &Settings) -> Result<Bridge, AllocError>
        requires { IsSettings settings.now }
        ensures { IfOk result (IsNew (bridge_settings_of (alone settings.now))) }
    {
        let setup = Setup::alone(settings)?;
        Bridge::with(alloc, &setup)
    }

    /// A bridge of all that a file configures, before it starts.
    pub fn with(alloc: Global, setup: &Setup) -> Result<Bridge, AllocError>
        requires { IsSetup setup.now }
        ensures { IfOk result (IsNew (bridge_settings_of setup.now)) }
    {
        let output = CallOutput::boxed(alloc)?;
        let parts = Beside::made(alloc, setup)?;
        let plain = voice_of(alloc, setup)?;
        // The largest part, last: what is kept while others are made lies on the stack once more.
        let gateway = Gateway::with(
            alloc,
            &setup.settings.config,
            &setup.ignore,
            setup.optional_sentences,
        )?;
        Ok(Bridge {
            gateway,
            started: false,
            start: 0,
            parts,
            plain,
            replaced: Replaced::by(setup),
            records: setup.record,
            gave: false,
            output,
        })
    }

    /// Whether it was started.
    pub fn started(&self) -> bool
        ensures { result ≡ self.now.started }
    {
        self.started
    }

    /// Starts at a moment, once: the gateway claims its address, and asks all for theirs.
    pub fn start(&mut self, moment: u64)
        requires { self.old.started ≡ false }
        ensures start { IsStart moment self.old self.new }
        ensures started { self.new.started ≡ true }
    {
        self.forget();
        self.gateway.start(moment, &mut self.output.as_mut().outbox);
        self.started = true;
        self.start = moment;
    }

    /// Takes an event: where it isn't earlier than the last entry, the gateway takes it, then the parts beside it, and then the gateway the
    /// command that it completes, as an entry of its own at the same moment; else it is reported, and changes nothing.
    pub fn take(&mut self, event: &Event<'_>)
        requires started { self.old.started ≡ true }
        requires valid { IsEventValid event.now }
        ensures step { IsBridgeStep (entry_of event.now) self.old self.new }
        ensures started { self.new.started ≡ true }
    {
        let accepted = accepts(&self.gateway, event);
        self.forget();
        self.step(event);
        if accepted {
            self.tell(event);
            self.obey();
        }
    }

    /// Forgets what the last call left.
    #[inline(always)]
    fn forget(&mut self)
        ensures { IsForgotten self.old self.new }
    {
        let output = self.output.as_mut();
        output.outbox.clear();
        if self.gave {
            output.ordered = 0;
            output.plain.clear();
            self.parts.clear();
            self.gave = false;
        }
    }

    /// Lets the gateway itself take an event.
    #[inline(always)]
    fn step(&mut self, event: &Event<'_>)
        requires started { self.old.started ≡ true }
        requires valid { IsEventValid event.now }
        requires empty { self.old.output ≡ no_output }
        ensures { IsGatewayStep (entry_of event.now) self.old self.new }
    {
        self.gateway.step(event, &mut self.output.as_mut().outbox);
    }

    /// Lets the parts beside the gateway take the event that it has taken, and says the datagrams of all once more where that is asked for.
    #[inline(always)]
    fn tell(&mut self, event: &Event<'_>)
        requires started { self.old.started ≡ true }
        requires valid { IsEventValid event.now }
        requires alone { IsAlone self.old.output self.old.parts }
        ensures { IsBesideStep (entry_of event.now) self.old self.new }
    {
        let output = self.output.as_mut();
        let step = Step {
            gateway: &self.gateway,
            outbox: &output.outbox,
            event,
            start: self.start,
        };
        self.gave = self.parts.after(&step);
        if let Some(voice) = &mut self.plain {
            if self.gave || posts(&output.outbox) {
                self.gave = true;
                say_again(&self.gateway, self.replaced, voice, output, &mut self.parts);
            }
        }
    }

    /// Takes the command that the event left, where it left one.
    #[inline(always)]
    fn obey(&mut self)
        requires { self.old.started ≡ true }
        ensures { IsOrder self.old.output.outbox.command self.old self.new }
    {
        if let Some(command) = self.output.outbox.command() {
            self.order(command.source, command.address);
        }
    }

    /// Takes a command from this source to go to an address, which concerns the gateway alone.
    #[inline(never)]
    fn order(&mut self, source: u8, address: u8)
        requires { self.old.started ≡ true }
        ensures { IsObeyed (record { source = source; address = address }) self.old self.new }
    {
        let output = self.output.as_mut();
        let given = output.outbox.len();
        self.gateway
            .obey(Command { source, address }, &mut output.outbox);
        output.ordered = output.outbox.len().saturating_sub(given);
        self.gave = true;
    }

    /// The moment of the last entry, in microseconds; 0 before any.
    pub fn moment(&self) -> u64
        ensures { result ≡ self.now.gateway.moment }
    {
        self.gateway.moment()
    }

    /// Lets the bridge go. Whoever made one calls this where it is done with: of what a bridge consists, and how each part is let go, is
    /// known here alone then.
    pub fn close(self) {}

    /// Whether what comes is to be written down.
    pub fn records(&self) -> bool
        ensures { result ≡ self.now.records }
    {
        self.records
    }

    /// How many emits the last call left.
    #[inline(always)]
    pub fn len(&self) -> usize
        ensures { result ≡ length (output_of self.now) }
    {
        if self.gave {
            len_in(&self.parts, &self.output)
        } else {
            self.output.outbox.len()
        }
    }

    /// The emit at this place of all that the last call left, in its order, from 0; None exactly beyond the list.
    pub fn emit(&self, place: usize) -> Option<Emit<'_>>
        ensures emit { option_map emit_of result ≡ slice_get (output_of self.now) place }
        ensures valid { IfSome result CanWrite }
    {
        emit_in(&self.parts, &self.output, place)
    }
}

/// Whether the gateway itself has a datagram.
fn posts(outbox: &Outbox) -> bool
    ensures { result ≡ false → IsUnposted outbox.now }
{
    match outbox.emits.datagram() {
        Some(_) => true,
        None => false,
    }
}

/// Who says plain sentences, if a file asks for them.
#[tactic(auto, unfolding(crate::specs::BridgeSettings::bridge_settings_of))]
fn voice_of(alloc: Global, setup: &Setup) -> Result<Option<Voice>, AllocError>
    ensures { IfOk result (λ voice. voice ≡ voice_by (bridge_settings_of setup.now).plain) }
{
    match setup.plain {
        None => Ok(None),
        Some(group) => Ok(Some(Voice::new(alloc, group, u64::from(setup.plain_every_ms) * 1000)?)),
    }
}

/// The stream of the gateway's own datagram.
fn own_stream(gateway: &Gateway, outbox: &Outbox) -> Option<Stream>
    ensures { IsOwnStream gateway.now outbox.now result }
{
    match SelectedMessage::of(gateway, outbox) {
        Some(message) => Some(Stream::of_reading(&message.reading)),
        None => None,
    }
}

/// Says the gateway's own datagram once more, where no part is said in its place.
fn say_own(
    replaced: Replaced,
    voice: &mut Voice,
    moment: u64,
    stream: Option<Stream>,
    output: &mut CallOutput,
)
    requires { output.old.plain ≡ no_emits }
    ensures kept { output.new ≡ record output.old { plain = output.new.plain } }
    ensures voice { voice.new ≡ (said_all voice.old moment (own_uttered replaced stream (emits_of output.old.outbox.emits))).after }
    ensures plain { emits_of output.new.plain ≡ (said_all voice.old moment (own_uttered replaced stream (emits_of output.old.outbox.emits))).plain }
{
    if !replaced.has(stream) {
        say_plain(
            voice,
            moment,
            stream,
            &output.outbox.emits,
            &mut output.plain,
        );
    }
}

/// Says the datagrams of an event once more, as plain sentences.
#[inline(never)]
fn say_again(
    gateway: &Gateway,
    replaced: Replaced,
    voice: &mut Voice,
    output: &mut CallOutput,
    parts: &mut Beside,
)
    requires plain { output.old.plain ≡ no_emits }
    requires parts { beside_plain parts.old ≡ [] }
    ensures { IsSaidAgain gateway.now replaced voice.old output.old parts.old voice.new output.new parts.new }
{
    let moment = gateway.moment();
    let stream = own_stream(gateway, &output.outbox);
    say_own(replaced, voice, moment, stream, output);
    parts.say_plain(voice, moment);
}

/// Whether an event isn't earlier than the last entry.
fn accepts(gateway: &Gateway, event: &Event<'_>) -> bool
    ensures { result ≡ nat_le gateway.now.moment (moment_of (entry_of event.now)) }
{
    gateway.moment() <= moment_of(event)
}
