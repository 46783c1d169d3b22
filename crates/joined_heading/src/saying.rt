//! The datagram of a magnetic heading that the gateway selected.
ghost use Rattle.std.specs.Prelude.{◌≡◌, IfSome, Some};
ghost use Rattle.readings.specs.Ranges.{Admits, deviation};
ghost use Rattle.readings.specs.Rows.{IsValid};
ghost use Rattle.history.specs.Choice.{is_usable};
ghost use Rattle.gate_outbox.specs.Output.{and_posted};
ghost use Rattle.joined_rmc.specs.Kept.{in_last, lent};
ghost use Rattle.joined_rmc.specs.RmcOut.{variation_in};
ghost use Rattle.parts.specs.Picked.{last_picked};
ghost use Rattle.joined_heading.specs.HeadingOut.{magnetic_of, or_other};
ghost use Rattle.joined_heading.specs.Kept.{saying_step, selected_step};
ghost use Rattle.joined_heading.specs.Sentences.{IsHeading};

use crate::joined_heading::{HeadingEmits, JoinedHeading};
use crate::magnetic::MagneticHeading;
use crate::writing::write_headings;
use parts::{Gateway, Outbox, SelectedMessage};
use readings::{Reading, Row, usable};
use tag_block::MOST_COUNT;

impl JoinedHeading {
    /// Hears what the gateway selected, and says a magnetic heading.
    pub(crate) fn join(&mut self, gateway: &Gateway, outbox: &Outbox, emits: &mut HeadingEmits)
        ensures after { self.new ≡ (selected_step self.old gateway.now.moment (last_picked gateway.now outbox.now)).after }
        ensures emits { emits.new ≡ and_posted emits.old (selected_step self.old gateway.now.moment (last_picked gateway.now outbox.now)).posted }
    {
        if outbox.selected() {
            self.take_selected(gateway, outbox, emits);
        }
    }

    fn take_selected(&mut self, gateway: &Gateway, outbox: &Outbox, emits: &mut HeadingEmits)
        ensures after { self.new ≡ (selected_step self.old gateway.now.moment (last_picked gateway.now outbox.now)).after }
        ensures emits { emits.new ≡ and_posted emits.old (selected_step self.old gateway.now.moment (last_picked gateway.now outbox.now)).posted }
    {
        if let Some(new) = SelectedMessage::of(gateway, outbox) {
            self.measured.keep_newer(Row::HeadingTrue, &new);
            self.take_reading(gateway.moment(), &new.reading, emits);
        }
    }

    /// Says a reading at a moment, where it is a magnetic heading.
    fn take_reading(&mut self, moment: u64, reading: &Reading, emits: &mut HeadingEmits)
        requires { IsValid reading.now }
        ensures after { self.new ≡ (saying_step self.old moment (magnetic_of reading.now)).after }
        ensures emits { emits.new ≡ and_posted emits.old (saying_step self.old moment (magnetic_of reading.now)).posted }
    {
        match magnetic_in(reading) {
            None => {}
            Some(said) => self.say(moment, &said, emits),
        }
    }

    /// Says a magnetic heading in one datagram, and counts its lines.
    fn say(&mut self, moment: u64, said: &MagneticHeading, emits: &mut HeadingEmits)
        requires { IsHeading said.now }
        ensures after { self.new ≡ (saying_step self.old moment (Some said.now)).after }
        ensures emits { emits.new ≡ and_posted emits.old (saying_step self.old moment (Some said.now)).posted }
    {
        let said = MagneticHeading {
            heading: said.heading,
            deviation: said.deviation,
            variation: or_other(said.variation, self.variation_at(moment)),
        };
        let computed = !self.is_measured(moment);
        let datagram = emits.post(self.config.group);
        let lines = write_headings(
            self.sfi,
            self.lines,
            &self.config,
            computed,
            &said,
            &mut datagram.packet,
        );
        self.lines = (self.lines + lines) % MOST_COUNT;
    }

    /// The variation of another message at a moment.
    fn variation_at(&self, moment: u64) -> Option<i64>
        ensures value { result ≡ variation_in (in_last moment self.now.variation) }
        ensures range { Admits deviation result }
    {
        variation_in(self.variation.says(moment))
    }

    /// Whether a true heading is measured at a moment.
    fn is_measured(&self, moment: u64) -> bool
        ensures { result ≡ is_usable (in_last moment self.now.measured) }
    {
        says_a_value(self.measured.says(moment))
    }
}

/// What a reading says, where it is a magnetic heading.
fn magnetic_in(reading: &Reading) -> Option<MagneticHeading>
    requires { IsValid reading.now }
    ensures value { result ≡ magnetic_of reading.now }
    ensures valid { IfSome result IsHeading }
{
    match reading {
        Reading::HeadingMagnetic {
            heading,
            deviation,
            variation,
        } => Some(MagneticHeading {
            heading: *heading,
            deviation: *deviation,
            variation: *variation,
        }),
        _ => None,
    }
}

/// The message's own variation, or else the other one.
fn or_other(own: Option<i64>, other: Option<i64>) -> Option<i64>
    ensures { result ≡ or_other own other }
{
    match own {
        None => other,
        Some(own) => Some(own),
    }
}

fn variation_in(reading: Option<&Reading>) -> Option<i64>
    requires { IfSome reading (λ r. IsValid r.now) }
    ensures value { result ≡ variation_in (lent reading.entry) }
    ensures range { Admits deviation result }
{
    match reading {
        Some(Reading::HeadingMagnetic { variation, .. }) => *variation,
        _ => None,
    }
}

/// Whether what is said, if anything is, has a value.
fn says_a_value(reading: Option<&Reading>) -> bool
    ensures { result ≡ is_usable (lent reading.entry) }
{
    match reading {
        Some(reading) => usable(reading),
        None => false,
    }
}
