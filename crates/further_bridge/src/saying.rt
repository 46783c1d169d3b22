//! What is noted and said of a message that is complete.
ghost use Rattle.std.specs.Prelude.{◌≡◌, ◌<◌, Some, [], ◌∷◌};
ghost use Rattle.std.specs.List.{AllByRecursion};
ghost use Rattle.claim_table.specs.Claims.{places};
ghost use Rattle.gate_model.specs.Choosing.{is_ranked_chosen, ranked_after};
ghost use Rattle.gate_outbox.specs.Output.{and_left, and_posted, and_told};
ghost use Rattle.quantities.specs.Told.{GivesFrom, IsAnyFrom, IsFrom, entries};
ghost use Rattle.quantities.specs.declared.value.Told.TheVariants.{Short};
ghost use Rattle.further_bridge.specs.FurtherOut.{has_voice, said_gives, short_gives};
ghost use Rattle.further_bridge.specs.Kept.{counted, given_up, is_water_said, message_step, most_told, numbered, ranked_step, told_step, value_step, values_step};

use crate::bridge::{FurtherBridge, FurtherEmits, ValueEmits};
use crate::said::Said;
use crate::writing::write_value;
use bus_listener::{Gateway, forget_changed, has_place, is_told};
use gate_outbox::Emits;
use gate_outbox::reports::of_source;
use quantities::{MOST_TOLD, Quantity, Told, Value, usable};
use report_rules::SHORT_MESSAGE;
use source_choice::Rank;
use tag_block::MOST_COUNT;

impl FurtherBridge {
    /// Forgets what was noted of the address that was left, and of the one that was won.
    #[inline(always)]
    pub(crate) fn give_up(&mut self, gateway: &Gateway)
        ensures { self.new ≡ given_up gateway.now.addresses.changed self.old }
    {
        forget_changed(&mut self.choice, gateway);
    }

    /// Takes a message: each value is noted where its sender has a rank in the quantity, and said where it is selected and has a voice. From an
    /// address that no device can have nothing is taken.
    pub(crate) fn take(
        &mut self,
        said: &Said,
        emits: &mut FurtherEmits,
        second: &mut ValueEmits,
        third: &mut ValueEmits,
    )
        requires range { GivesFrom entries said.now.told }
        ensures after { self.new ≡ (message_step self.old (Some said.now)).after }
        ensures first { emits.new ≡ and_left most_told emits.old (message_step self.old (Some said.now)).emits }
        ensures second { second.new ≡ and_posted second.old (message_step self.old (Some said.now)).second }
        ensures third { third.new ≡ and_posted third.old (message_step self.old (Some said.now)).third }
    {
        if has_place(said.source) {
            self.take_told(said, emits, second, third);
        }
    }

    fn take_told(
        &mut self,
        said: &Said,
        emits: &mut FurtherEmits,
        second: &mut ValueEmits,
        third: &mut ValueEmits,
    )
        requires place { said.now.source < places }
        requires range { GivesFrom entries said.now.told }
        ensures after { self.new ≡ (told_step self.old said.now said.now.told).after }
        ensures first { emits.new ≡ and_left most_told emits.old (told_step self.old said.now said.now.told).emits }
        ensures second { second.new ≡ and_posted second.old (told_step self.old said.now said.now.told).second }
        ensures third { third.new ≡ and_posted third.old (told_step self.old said.now said.now.told).third }
    {
        match &said.told {
            Told::Values(values) => self.take_values(said, values, emits, second, third),
            Told::Outside => {}
            Told::Short => tell_short(said, emits),
        }
    }

    /// Takes the values of a message, one after another: each has a place of its own for its datagram.
    fn take_values(
        &mut self,
        said: &Said,
        values: &[Option<Value>; MOST_TOLD],
        first: &mut FurtherEmits,
        second: &mut ValueEmits,
        third: &mut ValueEmits,
    )
        requires place { said.now.source < places }
        requires range { AllByRecursion (IsAnyFrom entries) values.now }
        ensures after { self.new ≡ (values_step self.old said.now values.now).after }
        ensures first { first.new ≡ and_posted first.old (values_step self.old said.now values.now).emits.posted }
        ensures second { second.new ≡ and_posted second.old (values_step self.old said.now values.now).second }
        ensures third { third.new ≡ and_posted third.old (values_step self.old said.now values.now).third }
    {
        self.take_value(said, &values[0], first);
        self.take_value(said, &values[1], second);
        self.take_value(said, &values[2], third);
    }

    /// Takes a value of a message, or none.
    fn take_value<const ROOM: usize>(
        &mut self,
        said: &Said,
        value: &Option<Value>,
        emits: &mut Emits<ROOM>,
    )
        requires place { said.now.source < places }
        requires range { IsAnyFrom entries value.now }
        ensures after { self.new ≡ (value_step self.old said.now value.now).after }
        ensures emits { emits.new ≡ and_posted emits.old (value_step self.old said.now value.now).posted }
    {
        let Some(value) = value else {
            return;
        };
        let rank = self.config.rank(value.quantity, said.name);
        self.take_ranked(said, value, rank, emits);
    }

    /// Takes a value whose sender has this rank, or none.
    fn take_ranked<const ROOM: usize>(
        &mut self,
        said: &Said,
        value: &Value,
        rank: Option<Rank>,
        emits: &mut Emits<ROOM>,
    )
        requires place { said.now.source < places }
        requires range { IsFrom entries value.now }
        ensures after { self.new ≡ (ranked_step self.old said.now value.now rank).after }
        ensures emits { emits.new ≡ and_posted emits.old (ranked_step self.old said.now value.now rank).posted }
    {
        let chosen = self.note(said, value, rank);
        if chosen && self.has_voice(value, said.moment) {
            self.say(value, emits);
        }
    }

    /// Notes what the sender says of the quantity, where it has a rank. Says whether it is selected.
    fn note(&mut self, said: &Said, value: &Value, rank: Option<Rank>) -> bool
        requires { said.now.source < places }
        ensures after { self.new ≡ record self.old { choices = ranked_after self.old.choices said.now.source said.now.moment rank (numbered value.now) } }
        ensures chosen { result ≡ is_ranked_chosen self.old.choices said.now.source said.now.moment rank (numbered value.now) }
    {
        let Some(rank) = rank else {
            return false;
        };
        let told = source_choice::Told {
            subject: value.quantity.number(),
            usable: usable(value),
        };
        self.choice.take(said.source, rank, said.moment, told)
    }

    /// Whether the value may be said: that of the sea's temperature isn't while the gateway says the row.
    fn has_voice(&self, value: &Value, moment: u64) -> bool
        ensures { result ≡ has_voice (is_water_said self.now.water moment) value.now }
    {
        !(value.quantity.number() == Quantity::SeaTemperature.number()
            && self.is_water_said(moment))
    }

    /// Says a value in one datagram, and counts its line.
    fn say<const ROOM: usize>(&mut self, value: &Value, emits: &mut Emits<ROOM>)
        requires range { IsFrom entries value.now }
        ensures after { self.new ≡ counted self.old }
        ensures emits { emits.new ≡ and_posted emits.old (said_gives self.old.rule self.old.sfi self.old.lines (value.now ∷ [])) }
    {
        let talker = self.config.talker(value.quantity);
        let twin_engines = self.config.twin_engines();
        let datagram = emits.post(self.config.group());
        write_value(
            self.sfi,
            talker,
            twin_engines,
            self.lines,
            value,
            &mut datagram.packet,
        );
        self.lines = (self.lines + 1) % MOST_COUNT;
    }
}

/// Reports a message that is too short, where the gateway doesn't.
fn tell_short(said: &Said, emits: &mut FurtherEmits)
    ensures { emits.new ≡ and_told most_told emits.old (short_gives said.now.source said.now.pgn Short) }
{
    if is_told(said.pgn) {
        emits.tell(of_source(SHORT_MESSAGE, said.source, said.pgn));
    }
}
