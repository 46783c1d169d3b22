//! What is heard of plotters, and of whose address changed hands.
ghost use Rattle.std.specs.Prelude.{◌≡◌, ◌<◌, ◌≤◌, length, Some};
ghost use Rattle.claim_table.specs.Claims.{places};
ghost use Rattle.gate_outbox.specs.Output.{and_left, and_posted, and_told};
ghost use Rattle.bus_listener.specs.Promises.{IsListening};
ghost use Rattle.bus_listener.specs.Steps.{IsEventValid, entry_of};
ghost use Rattle.navigation.specs.Kept.{IsSound, given_up, hearing_by, left_by, message_step, most_told, said_step, step_by};
ghost use Rattle.navigation.specs.Legs.{kind_of};

use crate::course::TrackError;
use crate::kinds::OfPlotters;
use crate::navigation::{NavEmits, Navigation};
use crate::said::{Said, Says, said_by};
use bus_listener::{Gateway, forget_changed, has_place};
use gate_events::Event;
use gate_outbox::reports::of_source;
use report_rules::SHORT_MESSAGE;

impl Navigation {
    /// Hears an event, and follows the gateway.
    #[tactic(auto, using(gate_outbox::proofs::Telling::told_more))]
    pub(crate) fn hear(&mut self, gateway: &Gateway, event: &Event<'_>, emits: &mut NavEmits)
        requires valid { IsEventValid event.now }
        ensures after { self.new ≡ (step_by gateway.now self.old (entry_of event.now)).after }
        ensures emits { emits.new ≡ and_left most_told emits.old (left_by gateway.now self.old (entry_of event.now)) }
        ensures few { length self.old.rule.taken.sources < 255 }
        ensures room { length (hearing_by gateway.now self.old (entry_of event.now)).told ≤ 258 }
        ensures history { IsListening kind_of gateway.now (entry_of event.now) self.old.slots (hearing_by gateway.now self.old (entry_of event.now)) }
    {
        match self.listener.after(gateway, event, &OfPlotters, emits) {
            None => self.follow(gateway),
            Some(message) => {
                let said = said_by(&message);
                self.follow(gateway);
                self.take(&said, emits);
            }
        }
    }

    /// Forgets what was said of addresses that changed hands.
    fn follow(&mut self, gateway: &Gateway)
        ensures { self.new ≡ given_up gateway.now.addresses.changed self.old }
    {
        forget_changed(&mut self.choice, gateway);
        self.courses.forget_changed(gateway);
    }

    /// Takes a message of a plotter. From an address that no device can have nothing is taken.
    fn take(&mut self, said: &Said, emits: &mut NavEmits)
        requires { IsSound said.now.says }
        ensures after { self.new ≡ (message_step self.old (Some said.now)).after }
        ensures told { emits.new ≡ and_posted (and_told most_told emits.old (message_step self.old (Some said.now)).told) (message_step self.old (Some said.now)).posted }
    {
        if has_place(said.source) {
            self.take_said(said, emits);
        }
    }

    fn take_said(&mut self, said: &Said, emits: &mut NavEmits)
        requires place { said.now.source < places }
        requires sound { IsSound said.now.says }
        ensures after { self.new ≡ (said_step self.old said.now said.now.says).after }
        ensures told { emits.new ≡ and_posted (and_told most_told emits.old (said_step self.old said.now said.now.says).told) (said_step self.old said.now said.now.says).posted }
    {
        match &said.says {
            Says::Leg(leg, goal) => self.take_leg(said, leg, goal, emits),
            Says::Error(distance) => {
                let error = TrackError {
                    moment: said.moment,
                    distance: *distance,
                };
                self.courses.take_error(said.source, error);
            }
            Says::Short => emits.tell(of_source(SHORT_MESSAGE, said.source, said.pgn)),
            Says::Nothing => {}
        }
    }
}
