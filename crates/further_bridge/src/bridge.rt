//! Further quantities beside the gateway.
ghost use Rattle.std.specs.Prelude.{◌≡◌, ◌≤◌, false, [], All, IfOk, None, length, option_map};
ghost use Rattle.std.specs.Int.{IsInRange};
ghost use Rattle.settings.specs.Setup.{IsQuantity};
ghost use Rattle.quantities.specs.Told.{kind_of};
ghost use Rattle.gate_outbox.specs.Output.{and_left, and_posted, no_emits};
ghost use Rattle.parts.specs.Picked.{last_picked};
ghost use Rattle.bus_listener.specs.Steps.{IsEventValid, entry_of};
ghost use Rattle.further_bridge.specs.FurtherRule.{further_rule};
ghost use Rattle.bus_listener.specs.Kept.{may_complete};
ghost use Rattle.bus_listener.specs.Promises.{IsListening};
ghost use Rattle.further_bridge.specs.Kept.{followed, further_opened, hearing_by, most_told, no_streams, said_of, step_by, streams_in, streams_of};
ghost use Rattle.further_bridge.specs.Promises.{IsFurtherOpening, IsFurtherStep, IsStepBy, in_places, said_in_places};

use crate::config::{FurtherConfig, timeouts_of};
use crate::kinds::OfQuantities;
use crate::said::{Streams, no_streams, said_by, streams_of};
use arrayvec::ArrayVec;
use bus_listener::{BusListener, Gateway, may_complete};
use gate_events::Event;
use gate_outbox::Emits;
use joined_rmc::LastOfRow;
use n2k_id::Pattern;
use n2k_id::address::ADDRESSES;
use parts::Outbox;
use sentence_text::Sfi;
use settings::Quantities;
use source_choice::Choice;
use std::alloc::{AllocError, Global};
use std::marker::Model;

/// The most reports of one event: one for each of 256 messages in the making, two of a frame, and one of the message that it completes. It is
/// another number than that of reports of ships: the listener's hearing of a fast packet is then each one's own, and is laid out in place.
pub(crate) const MOST_REPORTS: usize = 259;

/// What an event leaves: at most 259 reports, and behind them the datagram of a message's first value.
pub type FurtherEmits = Emits<MOST_REPORTS>;

/// The datagram of another value of a message, which has at most [`quantities::MOST_TOLD`].
pub type ValueEmits = Emits<0>;

/// What is kept of further quantities.
#[derive(Drop)]
pub struct FurtherBridge {
    pub(crate) config: FurtherConfig,
    /// The system function identifier by which the gateway speaks.
    pub(crate) sfi: Sfi,
    /// Their fast packets in the making.
    pub(crate) listener: BusListener,
    /// What each source said last of each of them.
    pub(crate) choice: Choice,
    /// What the gateway said last of the water's temperature.
    pub(crate) water: LastOfRow,
    /// How many lines were said, modulo [`tag_block::MOST_COUNT`].
    pub(crate) lines: u16,
}

impl Model for FurtherBridge {
    ghost use Rattle.std.specs.Prelude.{◌≡◌, ◌<◌, ◌≤◌, All, length};
    ghost use Rattle.claim_table.specs.Claims.{places};
    ghost use Rattle.quantities.specs.About.{quantities_count};
    ghost use Rattle.tag_block.specs.Tag.{most_count};
    ghost use Rattle.settings.specs.Setup.{IsQuantity};
    ghost use Rattle.parts.specs.Picked.{IsMessageValid};
    ghost use Rattle.further_bridge.specs.FurtherRule.{further_rule};
    ghost use Rattle.further_bridge.specs.Kept.{FurtherKept};

    ghost Value = { FurtherKept };

    ghost view = { λ b. record {
      rule = further_rule b.config.ignored.items b.config.quantities;
      sfi = b.sfi;
      slots = b.listener;
      choices = b.choice;
      water = b.water;
      lines = b.lines;
    } };

    ghost invariant = { λ b. All IsQuantity b.config.quantities.each × (b.listener.limit ≤ 256) × (b.choice.sources ≡ places)
        × (length b.choice.subjects ≡ quantities_count) × IsMessageValid b.water.message × (b.lines < most_count) };
}

impl FurtherBridge {
    /// Of these quantities, which are taken from none of the devices that the patterns match, and said by the system function identifier of a
    /// gateway. What that says of the water's temperature counts so many milliseconds. Who holds an address is asked of the gateway.
    pub fn new(
        alloc: Global,
        quantities: &Quantities,
        ignored: &ArrayVec<Pattern, 16>,
        sfi: Sfi,
        water_timeout: u32,
    ) -> Result<FurtherBridge, AllocError>
        requires slots { IsInRange 1 256 quantities.now.slots }
        requires each { All IsQuantity quantities.now.each }
        ensures value { IfOk result (λ b. b ≡ further_opened (further_rule ignored.now.items quantities.now) sfi water_timeout) }
        ensures history { IfOk result (IsFurtherOpening (further_rule ignored.now.items quantities.now) sfi water_timeout) }
    {
        let listener = BusListener::new(alloc, quantities.slots)?;
        let choice = Choice::new(
            alloc,
            ADDRESSES as u16,
            &timeouts_of(quantities.each.as_slice()),
        )?;
        let config = FurtherConfig::copy_of(quantities, ignored)?;
        Ok(FurtherBridge {
            config,
            sfi,
            listener,
            choice,
            water: LastOfRow::new(water_timeout),
            lines: 0,
        })
    }

    /// Takes an event that the gateway has taken in its last step, which left what is in the outbox. What is told is in `emits`, and behind it
    /// the datagram of the first value of a message; that of the second and of the third have places of their own. Answers the streams of the values;
    /// none where the event can't complete a message, so that no value is said.
    pub fn after(
        &mut self,
        gateway: &Gateway,
        outbox: &Outbox,
        event: &Event<'_>,
        emits: &mut FurtherEmits,
        second: &mut ValueEmits,
        third: &mut ValueEmits,
    ) -> Option<Streams>
        requires valid { IsEventValid event.now }
        requires empty { emits.old ≡ no_emits }
        requires second_empty { second.old ≡ no_emits }
        requires third_empty { third.old ≡ no_emits }
        ensures step { IsStepBy gateway.now outbox.now (entry_of event.now) self.old self.new emits.new second.new third.new }
        ensures history { IsFurtherStep gateway.now outbox.now (entry_of event.now) self.old self.new (in_places emits.new second.new third.new)
            (said_in_places (streams_in result) emits.new second.new third.new) }
        ensures silent { result ≡ None → (second.new ≡ no_emits) × (third.new ≡ no_emits) }
    {
        self.step(gateway, outbox, event, emits, second, third)
    }

    /// Takes an event: what is heard of it, and then the message that it completes. Most can't complete any.
    #[inline(always)]
    fn step(
        &mut self,
        gateway: &Gateway,
        outbox: &Outbox,
        event: &Event<'_>,
        emits: &mut FurtherEmits,
        second: &mut ValueEmits,
        third: &mut ValueEmits,
    ) -> Option<Streams>
        requires valid { IsEventValid event.now }
        ensures after { self.new ≡ (step_by gateway.now (last_picked gateway.now outbox.now) self.old (entry_of event.now)).after }
        ensures first { emits.new ≡ and_left most_told emits.old (step_by gateway.now (last_picked gateway.now outbox.now) self.old (entry_of event.now)).emits }
        ensures second { second.new ≡ and_posted second.old (step_by gateway.now (last_picked gateway.now outbox.now) self.old (entry_of event.now)).second }
        ensures third { third.new ≡ and_posted third.old (step_by gateway.now (last_picked gateway.now outbox.now) self.old (entry_of event.now)).third }
        ensures streams { streams_in result ≡ streams_of (option_map said_of (hearing_by gateway.now self.old (entry_of event.now)).message) }
        ensures passed { result ≡ None → may_complete kind_of (entry_of event.now) ≡ false }
        ensures room { length (hearing_by gateway.now self.old (entry_of event.now)).told ≤ 258 }
        ensures history { IsListening kind_of gateway.now (entry_of event.now) self.old.slots (hearing_by gateway.now self.old (entry_of event.now)) }
    {
        if may_complete(event, &OfQuantities) {
            Some(self.hear(gateway, outbox, event, emits, second, third))
        } else {
            self.pass(gateway, outbox, event, emits);
            None
        }
    }

    /// Takes an event that can't complete a message.
    #[inline(always)]
    fn pass(
        &mut self,
        gateway: &Gateway,
        outbox: &Outbox,
        event: &Event<'_>,
        emits: &mut FurtherEmits,
    )
        requires valid { IsEventValid event.now }
        requires none { may_complete kind_of (entry_of event.now) ≡ false }
        ensures after { self.new ≡ (step_by gateway.now (last_picked gateway.now outbox.now) self.old (entry_of event.now)).after }
        ensures first { emits.new ≡ and_left most_told emits.old (step_by gateway.now (last_picked gateway.now outbox.now) self.old (entry_of event.now)).emits }
        ensures second { (step_by gateway.now (last_picked gateway.now outbox.now) self.old (entry_of event.now)).second ≡ [] }
        ensures third { (step_by gateway.now (last_picked gateway.now outbox.now) self.old (entry_of event.now)).third ≡ [] }
        ensures streams { streams_of (option_map said_of (hearing_by gateway.now self.old (entry_of event.now)).message) ≡ no_streams }
        ensures room { length (hearing_by gateway.now self.old (entry_of event.now)).told ≤ 258 }
        ensures history { IsListening kind_of gateway.now (entry_of event.now) self.old.slots (hearing_by gateway.now self.old (entry_of event.now)) }
    {
        self.listener.pass(gateway, event, emits);
        self.follow(gateway, outbox);
    }

    /// Takes an event that may complete a message: what is heard of it, and then the message. What that says has 350 bytes, which are set to
    /// zero where this begins, so it is never part of its callers.
    #[inline(never)]
    #[tactic(auto, using(gate_outbox::proofs::Telling::left_behind, bus_listener::proofs::RoomLemmas::step_limit))]
    fn hear(
        &mut self,
        gateway: &Gateway,
        outbox: &Outbox,
        event: &Event<'_>,
        emits: &mut FurtherEmits,
        second: &mut ValueEmits,
        third: &mut ValueEmits,
    ) -> Streams
        requires valid { IsEventValid event.now }
        ensures after { self.new ≡ (step_by gateway.now (last_picked gateway.now outbox.now) self.old (entry_of event.now)).after }
        ensures first { emits.new ≡ and_left most_told emits.old (step_by gateway.now (last_picked gateway.now outbox.now) self.old (entry_of event.now)).emits }
        ensures second { second.new ≡ and_posted second.old (step_by gateway.now (last_picked gateway.now outbox.now) self.old (entry_of event.now)).second }
        ensures third { third.new ≡ and_posted third.old (step_by gateway.now (last_picked gateway.now outbox.now) self.old (entry_of event.now)).third }
        ensures streams { result ≡ streams_of (option_map said_of (hearing_by gateway.now self.old (entry_of event.now)).message) }
        ensures room { length (hearing_by gateway.now self.old (entry_of event.now)).told ≤ 258 }
        ensures history { IsListening kind_of gateway.now (entry_of event.now) self.old.slots (hearing_by gateway.now self.old (entry_of event.now)) }
    {
        match self.listener.after(gateway, event, &OfQuantities, emits) {
            None => {
                self.follow(gateway, outbox);
                no_streams()
            }
            Some(message) => {
                let said = said_by(&message);
                self.follow(gateway, outbox);
                self.take(&said, emits, second, third);
                streams_of(&said)
            }
        }
    }

    /// Follows the gateway: forgets whose address changed hands, and hears what it said of the water's temperature.
    #[inline(always)]
    fn follow(&mut self, gateway: &Gateway, outbox: &Outbox)
        ensures { self.new ≡ followed gateway.now (last_picked gateway.now outbox.now) self.old }
    {
        self.give_up(gateway);
        self.hear_water(gateway, outbox);
    }
}
