//! An event that completes no message.
ghost use Rattle.std.specs.Prelude.{◌≡◌, ℕ, false};
ghost use Rattle.pgn_profile.specs.declared.kinds.Kind.{Kind};
ghost use Rattle.gate_core.specs.Steps.{IsEventValid, entry_of};
ghost use Rattle.gate_outbox.specs.Output.{and_told};
ghost use Rattle.bus_listener.specs.Kept.{may_complete, unheard};
ghost use Rattle.bus_listener.specs.Kinds.{AreHeard};
ghost use Rattle.bus_listener.specs.Promises.{IsPassed};

use crate::listener::BusListener;
use bus_messages::fast;
use gate_core::{Gateway, moment_of};
use gate_events::Event;
use gate_outbox::Emits;

impl BusListener {
    /// Takes an event as [`BusListener::after`], for whoever knows that it can't complete a message: most events of a bus are passed by so.
    #[inline(always)]
    pub fn pass<const ROOM: usize>(
        &mut self,
        gateway: &Gateway,
        event: &Event<'_>,
        emits: &mut Emits<ROOM>,
    )
        requires { IsEventValid event.now }
        ensures { (kinds : ℕ → Kind) → AreHeard kinds → may_complete kinds (entry_of event.now) ≡ false
            → IsPassed kinds ROOM gateway.now (entry_of event.now) self.old self.new emits.old emits.new }
    {
        let _ordered = self.count();
        fast::end_overdue(&mut self.slots, moment_of(event), emits);
        self.leave(gateway, event, emits);
    }

    /// Takes an event of which nothing is heard, when nothing is overdue.
    #[inline(always)]
    fn leave<const ROOM: usize>(
        &mut self,
        gateway: &Gateway,
        event: &Event<'_>,
        emits: &mut Emits<ROOM>,
    )
        requires { IsEventValid event.now }
        ensures after { self.new ≡ (unheard gateway.now.addresses self.old (entry_of event.now)).slots }
        ensures emits { emits.new ≡ and_told ROOM emits.old (unheard gateway.now.addresses self.old (entry_of event.now)).told }
    {
        match event {
            Event::Frame { .. } => self.give_up(gateway, emits),
            Event::Datagram { .. } | Event::Tick { .. } => {}
        }
    }
}
