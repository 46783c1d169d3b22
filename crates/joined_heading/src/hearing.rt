//! What is heard of the variation, and of whose address changed hands.
ghost use Rattle.std.specs.Prelude.{◌≡◌, ◌≤◌, ◌<◌, Some, length};
ghost use Rattle.readings.specs.Ranges.{Admits, deviation};
ghost use Rattle.claim_table.specs.Claims.{places};
ghost use Rattle.gate_model.specs.AddressStands.{name_held};
ghost use Rattle.gate_outbox.specs.Output.{and_told};
ghost use Rattle.bus_listener.specs.Promises.{IsListening};
ghost use Rattle.bus_listener.specs.Steps.{IsEventValid, entry_of};
ghost use Rattle.joined_heading.specs.Kept.{given_up, hearing_by, heard_step, message_step, most_told, ranked_step, said_step, told_in};
ghost use Rattle.joined_heading.specs.Variations.{kind_of};
ghost use Rattle.source_choice.specs.SubjectRules.{rank_of};

use crate::joined_heading::{HeadingEmits, JoinedHeading};
use crate::kinds::OfVariation;
use crate::said::{Said, message_in, said_by};
use bus_listener::{Gateway, forget_changed, has_place};
use gate_events::Event;
use gate_outbox::reports::of_source;
use n2k_id::Name;
use readings::Row;
use report_rules::SHORT_MESSAGE;
use source_choice::{Rank, Told, rank_of};

impl JoinedHeading {
    /// Hears an event, and follows the gateway.
    #[tactic(auto, using(gate_outbox::proofs::Telling::told_more))]
    pub(crate) fn hear(&mut self, gateway: &Gateway, event: &Event<'_>, emits: &mut HeadingEmits)
        requires valid { IsEventValid event.now }
        ensures after { self.new ≡ (heard_step gateway.now self.old (hearing_by gateway.now self.old (entry_of event.now))).after }
        ensures emits { emits.new ≡ and_told most_told emits.old (told_in gateway.now self.old (hearing_by gateway.now self.old (entry_of event.now))) }
        ensures room { length (hearing_by gateway.now self.old (entry_of event.now)).told ≤ 2 }
        ensures history { IsListening kind_of gateway.now (entry_of event.now) self.old.slots (hearing_by gateway.now self.old (entry_of event.now)) }
    {
        match self.listener.after(gateway, event, &OfVariation, emits) {
            None => self.follow(gateway),
            Some(message) => {
                let said = said_by(&message);
                self.follow(gateway);
                self.take(&said, emits);
            }
        }
    }

    /// Forgets what was said of addresses that changed hands.
    fn follow(&mut self, gateway: &Gateway)
        ensures { self.new ≡ given_up (name_held gateway.now.addresses.claims.holders) gateway.now.addresses.changed self.old }
    {
        forget_changed(&mut self.choice, gateway);
        self.variation.forget_lost(gateway);
        self.measured.forget_lost(gateway);
    }

    /// Takes a message of the variation. From an address that no device can have nothing is taken.
    fn take(&mut self, said: &Said, emits: &mut HeadingEmits)
        requires { Admits deviation said.now.variation }
        ensures after { self.new ≡ (message_step self.old (Some said.now)).after }
        ensures emits { emits.new ≡ and_told most_told emits.old (message_step self.old (Some said.now)).told }
    {
        if has_place(said.source) {
            self.take_said(said, emits);
        }
    }

    fn take_said(&mut self, said: &Said, emits: &mut HeadingEmits)
        requires place { said.now.source < places }
        requires range { Admits deviation said.now.variation }
        ensures after { self.new ≡ (said_step self.old said.now).after }
        ensures emits { emits.new ≡ and_told most_told emits.old (said_step self.old said.now).told }
    {
        if said.short {
            emits.tell(of_source(SHORT_MESSAGE, said.source, said.pgn));
        } else {
            let rank = self.rank(said.name);
            self.take_ranked(said, rank);
        }
    }

    /// The rank of a NAME, of which a variation is taken.
    fn rank(&self, name: Name) -> Option<Rank>
        ensures { result ≡ rank_of self.now.rule.taken name.0 }
    {
        let taken = &self.config.variation;
        rank_of(&taken.sources, taken.others, &self.ignored, name)
    }

    /// Notes what a sender of this rank, or none, says, and keeps it where it is selected.
    fn take_ranked(&mut self, said: &Said, rank: Option<Rank>)
        requires place { said.now.source < places }
        requires range { Admits deviation said.now.variation }
        ensures { self.new ≡ ranked_step self.old said.now rank }
    {
        let Some(rank) = rank else {
            return;
        };
        let told = Told {
            subject: 0,
            usable: said.variation.is_some(),
        };
        if self.choice.take(said.source, rank, said.moment, told) {
            let message = message_in(said);
            self.variation.keep_newer(Row::HeadingMagnetic, &message);
        }
    }
}
