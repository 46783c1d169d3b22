//! The gateway.
ghost use Rattle.std.specs.Prelude.{◌≡◌, ℕ, [], IfOk};
ghost use Rattle.claim_table.specs.Claims.{is_ready};
ghost use Rattle.history.specs.AddressLaws.{AreSettings};
ghost use Rattle.history.specs.Entries.{History, now};
ghost use Rattle.history.specs.Gate.{opening_emits};
ghost use Rattle.history.specs.Known.{known};
ghost use Rattle.history.specs.Settings.{receiver_of};
ghost use Rattle.gate_model.specs.AddressStands.{changes_in, name_held};
ghost use Rattle.gate_model.specs.Machine.{opened_machine, started_at};
ghost use Rattle.gate_model.specs.MachineSteps.{stepped, commanded};
ghost use Rattle.gate_model.specs.Stands.{Stands};
ghost use Rattle.config_values.specs.Configs.{IsConfig};
ghost use Rattle.config_values.specs.Settings.{settings_of, settings_ignoring};
ghost use Rattle.gate_outbox.specs.Output.{nothing};
ghost use Rattle.gate_core.specs.Steps.{IsEventValid, and_step, by_keys, entry_of, only_told, output_of};
ghost use Rattle.gate_core.specs.Holding.{IsHeld, IsWithin};
ghost use Rattle.gate_core.specs.Promises.{IsStep, IsCommandStep, IsOrderStep};

use crate::state::State;
use arrayvec::ArrayVec;
use config_values::Config;
use gate_events::Event;
use gate_outbox::{Command, Outbox};
use history::OptionalSentences;
use n2k_id::{Name, Pattern};
use std::alloc::{AllocError, Global};
use std::marker::Model;

/// How many messages of each kind are in the making.
#[derive(Clone, Copy, PartialEq, Eq)]
pub struct HeldCounts {
    /// Fast packets.
    pub fast: u16,
    /// Sessions of the transport protocol.
    pub iso: u16,
    /// Groups of lines.
    pub group: u16,
}

/// A gateway between the bus and the network.
#[derive(Drop)]
pub struct Gateway {
    state: State,
}

impl Model for Gateway {
    ghost use Rattle.gate_model.specs.Machine.{Machine};
    ghost use Rattle.gate_model.specs.Stands.{IsReached};
    ghost use Rattle.gate_core.specs.Steps.{by_keys};

    ghost Value = { Machine };

    ghost view = { λ g. g.state };

    ghost invariant = { λ g. IsReached by_keys g.state };
}

impl Gateway {
    /// A gateway of this configuration, before it starts.
    pub fn new(alloc: Global, config: &Config) -> Result<Gateway, AllocError>
        requires { IsConfig config.now }
        ensures { IfOk result (λ g. g ≡ opened_machine (settings_of config.now)) }
    {
        Gateway::with(alloc, config, &ArrayVec::new(), OptionalSentences::USUAL)
    }

    /// A gateway of this configuration, before it starts. It takes no row from the devices that a pattern in `ignored` matches; all else
    /// of them is as of others: their claims, their requests and the answers to these, their commands. From the network it reads the
    /// sentences that `optional` says.
    pub fn with(
        alloc: Global,
        config: &Config,
        ignored: &ArrayVec<Pattern, 16>,
        optional: OptionalSentences,
    ) -> Result<Gateway, AllocError>
        requires { IsConfig config.now }
        ensures { IfOk result (λ g. g ≡ opened_machine (settings_ignoring ignored.now.items optional config.now)) }
    {
        let state = State::new(alloc, config, ignored, optional)?;
        Ok(Gateway { state })
    }

    /// Starts at a moment, once, before the first step: it claims the gateway's address, and asks all for theirs.
    pub fn start(&mut self, moment: u64, out: &mut Outbox)
        requires first { self.old ≡ opened_machine self.old.settings }
        requires empty { out.old ≡ nothing }
        ensures after { self.new ≡ started_at moment self.old }
        ensures stands { Stands by_keys self.new.settings moment [] self.new }
        ensures emits { out.new ≡ only_told (opening_emits self.old.settings) }
    {
        self.state.start(moment, &mut out.emits);
    }

    /// Takes an event: where it isn't earlier than the last entry, all that the history says is emitted, told and noted; else it is
    /// reported, and changes nothing.
    pub fn step(&mut self, event: &Event<'_>, out: &mut Outbox)
        requires valid { IsEventValid event.now }
        requires empty { out.old ≡ nothing }
        ensures after { self.new ≡ (stepped by_keys self.old (entry_of event.now)).after }
        ensures output { out.new ≡ output_of self.old.settings.name (stepped by_keys self.old (entry_of event.now)) }
        ensures history { IsStep (entry_of event.now) self.old self.new out.new }
        ensures settings { AreSettings self.old.settings }
    {
        self.state.step(event, out);
    }

    /// Takes a command to go to an address, at the moment of the last entry.
    pub fn command(&mut self, command: Command, out: &mut Outbox)
        requires empty { out.old ≡ nothing }
        ensures after { self.new ≡ (commanded self.old command.source command.address).after }
        ensures output { out.new ≡ output_of self.old.settings.name (commanded self.old command.source command.address) }
        ensures history { IsCommandStep command.source command.address self.old self.new out.new }
    {
        self.order(command.source, command.address, out);
    }

    /// Takes a command from this source to go to an address.
    fn order(&mut self, source: u8, address: u8, out: &mut Outbox)
        requires empty { out.old ≡ nothing }
        ensures after { self.new ≡ (commanded self.old source address).after }
        ensures output { out.new ≡ output_of self.old.settings.name (commanded self.old source address) }
        ensures history { IsCommandStep source address self.old self.new out.new }
    {
        self.state.obey(Command { source, address }, out);
    }

    /// Takes the command that the last step left, at the moment of the last entry: what it gives stands behind what is told of that entry.
    pub fn obey(&mut self, command: Command, out: &mut Outbox)
        ensures after { self.new ≡ (commanded self.old command.source command.address).after }
        ensures output { out.new ≡ and_step self.old.settings.name out.old (commanded self.old command.source command.address) }
        ensures history { IsOrderStep command self.old self.new out.old out.new }
    {
        self.order_behind(command.source, command.address, out);
    }

    /// Takes a command from this source to go to an address, behind what is told already.
    fn order_behind(&mut self, source: u8, address: u8, out: &mut Outbox)
        ensures after { self.new ≡ (commanded self.old source address).after }
        ensures output { out.new ≡ and_step self.old.settings.name out.old (commanded self.old source address) }
        ensures history { IsOrderStep (record { source = source; address = address }) self.old self.new out.old out.new }
    {
        self.state.obey(Command { source, address }, out);
    }

    /// The moment of the last entry, in microseconds; 0 before any.
    pub fn moment(&self) -> u64
        ensures moment { result ≡ self.now.moment }
        ensures history { (s : ℕ) (h : History) → Stands by_keys self.now.settings s h self.now → result ≡ now h }
    {
        self.state.moment()
    }

    /// How many messages of each kind are in the making: no more than are configured, and as many as are open of all that came.
    pub fn held(&self) -> HeldCounts
        ensures limits { IsWithin self.now.settings result }
        ensures history { (s : ℕ) (h : History) → Stands by_keys self.now.settings s h self.now
            → IsHeld self.now.settings s h result }
    {
        HeldCounts {
            fast: self.state.fast_held(),
            iso: self.state.iso_held(),
            group: self.state.groups_held(),
        }
    }

    /// The gateway's own address.
    #[tactic(auto, using(crate::proofs::Promises::own_is_known))]
    pub fn own(&self) -> Option<u8>
        ensures own { result ≡ self.now.addresses.claims.own }
        ensures history { (s : ℕ) (h : History) → Stands by_keys self.now.settings s h self.now
            → result ≡ (known (receiver_of self.now.settings) s h).claims.own }
    {
        self.state.own()
    }

    /// The address that a NAME left by the last entry, for another one.
    pub fn left(&self) -> Option<u8>
        ensures left { result ≡ self.now.addresses.changed.left }
        ensures history { (s : ℕ) (h : History) → Stands by_keys self.now.settings s h self.now
            → result ≡ (changes_in (receiver_of self.now.settings) s h).left }
    {
        self.state.changed().left
    }

    /// The address that was won by the last entry, from another NAME.
    pub fn won(&self) -> Option<u8>
        ensures won { result ≡ self.now.addresses.changed.won }
        ensures history { (s : ℕ) (h : History) → Stands by_keys self.now.settings s h self.now
            → result ≡ (changes_in (receiver_of self.now.settings) s h).won }
    {
        self.state.changed().won
    }

    /// Whether the gateway may send, at the moment of the last entry.
    #[tactic(auto, using(crate::proofs::Promises::ready_is_known))]
    pub fn ready(&self) -> bool
        ensures ready { result ≡ is_ready self.now.addresses.claims self.now.moment }
        ensures history { (s : ℕ) (h : History) → Stands by_keys self.now.settings s h self.now
            → result ≡ is_ready (known (receiver_of self.now.settings) s h).claims (now h) }
    {
        self.state.is_ready(self.state.moment())
    }

    /// Whether the gateway may send at a moment, in microseconds, by all that is known after the last entry.
    #[tactic(auto, using(crate::proofs::Promises::ready_at_is_known))]
    pub fn ready_at(&self, moment: u64) -> bool
        ensures ready { result ≡ is_ready self.now.addresses.claims moment }
        ensures history { (s : ℕ) (h : History) → Stands by_keys self.now.settings s h self.now
            → result ≡ is_ready (known (receiver_of self.now.settings) s h).claims moment }
    {
        self.state.is_ready(moment)
    }

    /// The NAME that holds an address.
    #[tactic(auto, using(crate::proofs::Promises::holder_is_known))]
    pub fn holder(&self, address: u8) -> Option<Name>
        ensures holder { result ≡ name_held self.now.addresses.claims.holders address }
        ensures history { (s : ℕ) (h : History) → Stands by_keys self.now.settings s h self.now
            → result ≡ name_held (known (receiver_of self.now.settings) s h).claims.holders address }
    {
        self.state.holder(address)
    }
}
