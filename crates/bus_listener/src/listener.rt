//! The listener.
ghost use Rattle.std.specs.Prelude.{◌≡◌, ◌+◌, ◌≤◌, [], IfOk, length};
ghost use Rattle.std.specs.Borrow.{sem};
ghost use Rattle.slot_views.specs.Slots.{IsMap};
ghost use Rattle.gate_outbox.specs.Output.{and_told};
ghost use Rattle.gate_core.specs.Steps.{IsEventValid, by_keys, entry_of};

use crate::kinds::Kinds;
use crate::message::HeardMessage;
use fast_packet::FastAssembler;
use gate_core::Gateway;
use gate_events::Event;
use gate_outbox::Emits;
use std::alloc::{AllocError, Global};
use std::marker::Model;

/// Messages of the bus in the making, beside those of the gateway.
#[derive(Drop)]
pub struct BusListener {
    pub(crate) slots: FastAssembler,
}

impl Model for BusListener {
    ghost use Rattle.slot_views.specs.Slots.{SlotMap};
    ghost use Rattle.fast_packet.specs.declared.key.FastKey.{FastKey};

    ghost Value = { SlotMap FastKey };

    ghost view = { λ b. b.slots };
}

impl BusListener {
    ghost use Rattle.bus_listener.specs.Lent.{ends_with, heard_message};
    ghost use Rattle.bus_listener.specs.Promises.{IsListening, IsOpening, step_by};

    /// With the memory for so many fast packets in the making. Who holds an address is asked of the gateway.
    pub fn new(alloc: Global, slots: u16) -> Result<BusListener, AllocError>
        ensures value { IfOk result (λ b. b ≡ record { limit = slots; entries = [] }) }
        ensures history { IfOk result (IsOpening slots) }
    {
        let slots = FastAssembler::new(alloc, slots)?;
        Ok(BusListener { slots })
    }

    /// How many messages are in the making.
    pub fn count(&self) -> u16
        ensures count { result ≡ length self.now.entries }
        ensures map { IsMap by_keys.fast self.now }
    {
        self.slots.count()
    }

    /// Takes an event that the gateway has taken in its last step, and lends the message that it completes: what is overdue at its moment
    /// ends before anything else.
    #[inline(always)]
    pub fn after<'a, K: Kinds, const ROOM: usize>(
        &'a mut self,
        gateway: &Gateway,
        event: &'a Event<'_>,
        kinds: &K,
        emits: &mut Emits<ROOM>,
    ) -> Option<HeardMessage<'a>>
        requires valid { IsEventValid event.now }
        ensures* after { sem 𝓛 (ends_with self.entry (step_by (K.kinds kinds.now) gateway.now self.old (entry_of event.now)).slots) }
        ensures emits { emits.new ≡ and_told ROOM emits.old (step_by (K.kinds kinds.now) gateway.now self.old (entry_of event.now)).told }
        ensures message { heard_message result ≡ (step_by (K.kinds kinds.now) gateway.now self.old (entry_of event.now)).message }
        ensures room { length (step_by (K.kinds kinds.now) gateway.now self.old (entry_of event.now)).told ≤ self.old.limit + 2 }
        ensures history { IsListening (K.kinds kinds.now) gateway.now (entry_of event.now) self.old
            (step_by (K.kinds kinds.now) gateway.now self.old (entry_of event.now)) }
    {
        let _ordered = self.count();
        self.step(gateway, event, kinds, emits)
    }
}
