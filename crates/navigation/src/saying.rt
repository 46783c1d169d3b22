//! A leg, and the datagram in which it is said.
ghost use Rattle.std.specs.Prelude.{◌≡◌, ◌<◌};
ghost use Rattle.claim_table.specs.Claims.{places};
ghost use Rattle.source_choice.specs.SubjectRules.{rank_of};
ghost use Rattle.gate_model.specs.Choosing.{is_ranked_chosen, ranked_after};
ghost use Rattle.gate_outbox.specs.Output.{and_posted};
ghost use Rattle.navigation.specs.Kept.{has_voice, is_alone, leg_step, said_by, texts_by};
ghost use Rattle.navigation.specs.Legs.{IsLeg};
ghost use Rattle.navigation.specs.NavOut.{told_by};
ghost use Rattle.readings.specs.Ranges.{Admits, cross_track};
ghost use Rattle.navigation.specs.Sentences.{leg_texts};

use crate::leg::{Goal, Leg};
use crate::navigation::{NavEmits, Navigation};
use crate::said::Said;
use crate::writing::write_leg;
use n2k_id::Name;
use source_choice::{Rank, Told, rank_of};
use tag_block::MOST_COUNT;

/// The rank behind every other one: no place is so far behind.
const LAST_RANK: Rank = Rank {
    place: u8::MAX,
    name: 0,
};

impl Navigation {
    /// Takes a leg: it is said where it is selected and has a voice.
    pub(crate) fn take_leg(&mut self, said: &Said, leg: &Leg, goal: &Goal, emits: &mut NavEmits)
        requires place { said.now.source < places }
        requires leg { IsLeg leg.now }
        ensures after { self.new ≡ (leg_step self.old said.now leg.now goal.now (rank_of self.old.rule.taken said.now.name.0)).after }
        ensures emits { emits.new ≡ and_posted emits.old (leg_step self.old said.now leg.now goal.now (rank_of self.old.rule.taken said.now.name.0)).posted }
    {
        let timeout = self.config.legs.timeout_ms;
        let error = self
            .courses
            .error_with(said.source, goal, timeout, said.moment);
        let has_voice = self.has_voice(said, leg, goal);
        let rank = self.rank(said.name);
        let chosen = self.note(said, leg, rank);
        self.courses.take_leg(said.source, goal);
        if chosen && has_voice {
            self.say(leg, error, emits);
        }
    }

    /// Whether a leg may be said: a usable one where its goal was named before; one without a bearing where no other device is fresh.
    fn has_voice(&self, said: &Said, leg: &Leg, goal: &Goal) -> bool
        requires { said.now.source < places }
        ensures { result ≡ has_voice self.now said.now leg.now goal.now }
    {
        if leg.bearing.is_some() {
            self.courses.is_named(said.source, goal)
        } else {
            self.choice.selected(0, said.source, LAST_RANK, said.moment)
        }
    }

    /// The rank of a NAME, of which legs are taken.
    fn rank(&self, name: Name) -> Option<Rank>
        ensures { result ≡ rank_of self.now.rule.taken name.0 }
    {
        let taken = &self.config.legs;
        rank_of(&taken.sources, taken.others, &self.ignored, name)
    }

    /// Notes that a sender of this rank, or none, said a leg, and says whether it is selected.
    fn note(&mut self, said: &Said, leg: &Leg, rank: Option<Rank>) -> bool
        requires { said.now.source < places }
        ensures after { self.new ≡ record self.old { choices = ranked_after self.old.choices said.now.source said.now.moment rank (told_by leg.now) } }
        ensures chosen { result ≡ is_ranked_chosen self.old.choices said.now.source said.now.moment rank (told_by leg.now) }
    {
        let Some(rank) = rank else {
            return false;
        };
        let told = Told {
            subject: 0,
            usable: leg.bearing.is_some(),
        };
        self.choice.take(said.source, rank, said.moment, told)
    }

    /// Says a leg with its error in one datagram, and counts its lines.
    fn say(&mut self, leg: &Leg, error: Option<i64>, emits: &mut NavEmits)
        requires leg { IsLeg leg.now }
        requires error { Admits cross_track error }
        ensures after { self.new ≡ (said_by self.old (leg_texts self.old.rule.talker leg.now error)).after }
        ensures emits { emits.new ≡ and_posted emits.old (said_by self.old (leg_texts self.old.rule.talker leg.now error)).posted }
    {
        let datagram = emits.post(self.config.group);
        let talker = self.config.legs.talker;
        let lines = write_leg(
            self.sfi,
            self.lines,
            talker,
            leg,
            error,
            &mut datagram.packet,
        );
        self.lines = (self.lines + lines) % MOST_COUNT;
    }
}
