//! All that the gateway keeps, and what each entry makes of it.
ghost use Rattle.std.specs.Prelude.{◌≡◌, length, IfOk};
ghost use Rattle.slot_views.specs.Traces.{unexpired};
ghost use Rattle.claim_table.specs.Claims.{is_ready};
ghost use Rattle.history.specs.Entries.{moment_of};
ghost use Rattle.history.specs.Gate.{opening_emits};
ghost use Rattle.gate_model.specs.Addresses.{changes_after};
ghost use Rattle.gate_model.specs.AddressStands.{name_held};
ghost use Rattle.gate_model.specs.Endings.{fast_overdue, sessions_overdue, groups_overdue};
ghost use Rattle.gate_model.specs.NetLines.{kept_until};
ghost use Rattle.gate_model.specs.Machine.{counted_in, later, opened_machine, overdue, started_at};
ghost use Rattle.gate_model.specs.MachineSteps.{stepped, entered, handled, commanded};
ghost use Rattle.config_values.specs.Configs.{IsConfig};
ghost use Rattle.config_values.specs.Settings.{settings_ignoring};
ghost use Rattle.gate_outbox.specs.Output.{and_told, most_told};
ghost use Rattle.gate_core.specs.Changes.{changed_of};
ghost use Rattle.gate_core.specs.Steps.{IsEventValid, Stays, by_keys, and_step, entry_of};

use crate::addresses::{Addresses, Changed};
use crate::state::opening::{addresses_of, assemblers_of, copy_of, traffic_of};
use arrayvec::ArrayVec;
use bus_messages::endings::end_sessions;
use bus_messages::fast::end_overdue;
use config_values::{Config, SelectiveConfig};
use fast_packet::FastAssembler;
use gate_events::{Detail, Event, Report};
use gate_outbox::frames::{own_claim, request_for_claims};
use gate_outbox::{Command, Outbox, StepEmits};
use history::OptionalSentences;
use iso_transport::IsoAssembler;
use n2k_id::{Name, Pattern};
use report_rules::MOMENT_BACK;
use row_traffic::network::Network;
use row_traffic::said::Said;
use std::alloc::{AllocError, Global};
use std::marker::Model;

mod changing;
mod completing;
mod frames;
mod hearing;
mod opening;

/// All that the gateway keeps.
#[derive(Drop)]
pub(crate) struct State {
    pub(crate) config: SelectiveConfig,
    pub(crate) addresses: Addresses,
    /// The moment of the last entry, in microseconds.
    pub(crate) moment: u64,
    pub(crate) fast: FastAssembler,
    pub(crate) sessions: IsoAssembler,
    pub(crate) said: Said,
    pub(crate) network: Network,
}

impl Model for State {
    ghost use Rattle.config_values.specs.Configs.{IsConfig};
    ghost use Rattle.config_values.specs.Settings.{settings_by};
    ghost use Rattle.gate_model.specs.Machine.{Machine};

    ghost Value = { Machine };

    ghost view = { λ s. record {
      settings = settings_by s.config;
      addresses = s.addresses;
      moment = s.moment;
      fast = s.fast;
      sessions = s.sessions;
      said = s.said;
      network = s.network;
    } };

    ghost invariant = { λ s. IsConfig s.config.base };
}

impl State {
    /// What a gateway of this configuration, by which no row is taken from these devices and these sentences are read, keeps before it
    /// starts.
    pub(crate) fn new(
        alloc: Global,
        config: &Config,
        ignored: &ArrayVec<Pattern, 16>,
        optional: OptionalSentences,
    ) -> Result<State, AllocError>
        requires { IsConfig config.now }
        ensures { IfOk result (λ s. s ≡ opened_machine (settings_ignoring ignored.now.items optional config.now)) }
    {
        let config = copy_of(config, ignored, optional)?;
        let addresses = addresses_of(alloc, &config)?;
        let (fast, sessions) = assemblers_of(alloc, &config)?;
        let (said, network) = traffic_of(alloc, &config)?;
        Ok(State {
            addresses,
            moment: 0,
            fast,
            sessions,
            said,
            network,
            config,
        })
    }

    /// Counts readiness from the moment, claims the gateway's address and asks all for theirs.
    #[tactic(auto, using(gate_outbox::proofs::Telling::told_more))]
    pub(crate) fn start(&mut self, moment: u64, out: &mut StepEmits)
        ensures after { self.new ≡ started_at moment self.old }
        ensures emits { out.new ≡ and_told most_told out.old (opening_emits self.old.settings) }
    {
        self.addresses.start(moment);
        let address = self.address();
        out.send(own_claim(self.name(), Some(address)));
        out.send(request_for_claims(address));
    }

    /// The NAME of the gateway.
    #[tactic(auto, unfolding(config_values::specs::Settings::settings_ignoring))]
    pub(crate) fn name(&self) -> Name
        ensures { result.0 ≡ self.now.settings.name }
    {
        self.config.base.name
    }

    /// The gateway's own address.
    pub(crate) fn own(&self) -> Option<u8>
        ensures { result ≡ self.now.addresses.claims.own }
    {
        self.addresses.claims().own()
    }

    /// Whether the gateway may send at this moment.
    pub(crate) fn is_ready(&self, moment: u64) -> bool
        ensures { result ≡ is_ready self.now.addresses.claims moment }
    {
        self.addresses.claims().ready(moment)
    }

    /// The address that the gateway begins with.
    #[tactic(auto, unfolding(config_values::specs::Settings::settings_ignoring))]
    fn address(&self) -> u8
        ensures { result ≡ self.now.settings.address }
    {
        self.config.base.address
    }

    /// Takes an event: where it is earlier than the last entry it is reported, and changes nothing.
    pub(crate) fn step(&mut self, event: &Event<'_>, out: &mut Outbox)
        requires valid { IsEventValid event.now }
        requires stays { Stays self.old }
        ensures after { self.new ≡ (stepped by_keys self.old (entry_of event.now)).after }
        ensures output { out.new ≡ and_step self.old.settings.name out.old (stepped by_keys self.old (entry_of event.now)) }
    {
        let moment = moment_of(event);
        if self.moment <= moment {
            self.enter(event, moment, out);
        } else {
            out.emits.tell(Report {
                rule: MOMENT_BACK,
                detail: Detail::Nothing,
            });
        }
    }

    /// Takes an event that isn't earlier than the last entry: what is overdue ends first.
    #[tactic(auto, using(gate_outbox::proofs::Telling::told_more))]
    fn enter(&mut self, event: &Event<'_>, moment: u64, out: &mut Outbox)
        requires valid { IsEventValid event.now }
        requires stays { Stays self.old }
        requires moment { moment ≡ moment_of (entry_of event.now) }
        ensures after { self.new ≡ (entered by_keys self.old (entry_of event.now)).after }
        ensures output { out.new ≡ and_step self.old.settings.name out.old (entered by_keys self.old (entry_of event.now)) }
    {
        self.pass_time(moment, &mut out.emits);
        let changed = self.handle(event, moment, out);
        self.count_entry(changed);
    }

    /// Ends what is overdue at a later moment, and tells it.
    #[tactic(auto, using(gate_outbox::proofs::Telling::told_more))]
    fn pass_time(&mut self, moment: u64, out: &mut StepEmits)
        ensures after { self.new ≡ later moment self.old }
        ensures emits { out.new ≡ and_told most_told out.old (overdue moment self.old) }
    {
        self.end_fast(moment, out);
        self.end_sessions(moment, out);
        self.end_groups(moment, out);
    }

    /// Ends the fast packets that are overdue.
    fn end_fast(&mut self, moment: u64, out: &mut StepEmits)
        ensures after { self.new ≡ record self.old { fast = unexpired moment self.old.fast } }
        ensures emits { out.new ≡ and_told most_told out.old (fast_overdue self.old.fast moment) }
    {
        end_overdue(&mut self.fast, moment, out);
    }

    /// Ends the sessions of the transport protocol that are overdue.
    fn end_sessions(&mut self, moment: u64, out: &mut StepEmits)
        ensures after { self.new ≡ record self.old { sessions = unexpired moment self.old.sessions } }
        ensures emits { out.new ≡ and_told most_told out.old (sessions_overdue self.old.addresses.claims.own self.old.sessions moment) }
    {
        let own = self.own();
        end_sessions(&mut self.sessions, own, moment, out);
    }

    /// Ends the groups of lines that are overdue, the last of what can be.
    fn end_groups(&mut self, moment: u64, out: &mut StepEmits)
        ensures after { self.new ≡ record self.old { moment = moment; network = kept_until moment self.old.network } }
        ensures emits { out.new ≡ and_told most_told out.old (groups_overdue self.old.network.groups moment) }
    {
        self.network.end_overdue(moment, out);
        self.moment = moment;
    }

    /// Takes an event when nothing is overdue, and answers which addresses change hands by it.
    fn handle(&mut self, event: &Event<'_>, moment: u64, out: &mut Outbox) -> Changed
        requires valid { IsEventValid event.now }
        requires stays { Stays self.old }
        requires moment { moment ≡ moment_of (entry_of event.now) }
        ensures after { self.new ≡ (handled by_keys self.old (entry_of event.now)).after }
        ensures output { out.new ≡ and_step self.old.settings.name out.old (handled by_keys self.old (entry_of event.now)) }
        ensures changed { changed_of result ≡ changes_after self.old.addresses (entry_of event.now) }
    {
        match event {
            Event::Frame { frame, .. } => self.frame(frame, moment, out),
            Event::Datagram { bytes, .. } => {
                self.datagram(bytes, moment, &mut out.emits);
                Changed::NONE
            }
            Event::Tick { .. } => Changed::NONE,
        }
    }

    /// Takes a command to go to an address, at the moment of the last entry.
    pub(crate) fn obey(&mut self, command: Command, out: &mut Outbox)
        ensures after { self.new ≡ (commanded self.old command.source command.address).after }
        ensures output { out.new ≡ and_step self.old.settings.name out.old (commanded self.old command.source command.address) }
    {
        let moment = self.moment();
        self.command(command, moment, &mut out.emits);
        self.count_entry(Changed::NONE);
    }

    /// The moment of the last entry.
    pub(crate) fn moment(&self) -> u64
        ensures { result ≡ self.now.moment }
    {
        self.moment
    }

    /// The NAME that holds an address.
    pub(crate) fn holder(&self, address: u8) -> Option<Name>
        ensures { result ≡ name_held self.now.addresses.claims.holders address }
    {
        match self.addresses.claims().holder(address) {
            Some(holder) => Some(holder.name),
            None => None,
        }
    }

    /// How many fast packets are in the making.
    pub(crate) fn fast_held(&self) -> u16
        ensures { result ≡ length self.now.fast.entries }
    {
        self.fast.count()
    }

    /// How many sessions of the transport protocol are open.
    pub(crate) fn iso_held(&self) -> u16
        ensures { result ≡ length self.now.sessions.entries }
    {
        self.sessions.count()
    }

    /// How many groups of lines are open.
    pub(crate) fn groups_held(&self) -> u16
        ensures { result ≡ length self.now.network.groups.entries }
    {
        self.network.count()
    }

    /// Which addresses changed hands by the last entry.
    pub(crate) fn changed(&self) -> Changed
        ensures { changed_of result ≡ self.now.addresses.changed }
    {
        self.addresses.changed()
    }

    /// One more entry has come, by which these addresses changed hands.
    fn count_entry(&mut self, changed: Changed)
        ensures { self.new ≡ counted_in (changed_of changed) self.old }
    {
        self.addresses.count_entry(changed);
    }
}

/// The moment of an event, in microseconds, as that of its entry in a history.
#[tactic(auto, using(crate::proofs::Entering::same_moment))]
pub fn moment_of(event: &Event<'_>) -> u64
    ensures { result ≡ moment_of (entry_of event.now) }
{
    event.moment()
}
