//! RMC, joined from what was said last of each row.
ghost use Rattle.std.specs.Prelude.{◌≡◌, ℕ, [], length, IsTrue, Some};
ghost use Rattle.std.specs.List.{list_all};
ghost use Rattle.sentence_text.specs.Byte.{is_capital};
ghost use Rattle.sentence_text.specs.Names.{IsSfi};
ghost use Rattle.readings.specs.Rows.{IsValid};
ghost use Rattle.sentence_profile.specs.Rmc.{IsMinimum};
ghost use Rattle.history.specs.Settings.{Settings};
ghost use Rattle.gate_model.specs.AddressStands.{name_held};
ghost use Rattle.joined_rmc.specs.JoinStands.{IsJoinStep, JoinStands};
ghost use Rattle.parts.specs.Picked.{last_picked};
ghost use Rattle.joined_rmc.specs.Lasting.{says_position};
ghost use Rattle.joined_rmc.specs.Kept.{Join, bytes_in, counted, datagram_in, is_due_message, join_with, minimum_in, empty_join, rows_held, rows_with, with_says};
ghost use Rattle.joined_rmc.specs.RmcOut.{datagram_by, rule_by};

use crate::last_of_row::{LastOfRow, is_of};
use crate::minimum::minimum;
use datagram450::write_sentence;
use parts::{Gateway, Outbox, SelectedMessage};
use readings::{ROWS, Row, usable};
use sentence_fields::SentenceText;
use sentence_rows::{Minimum, write_rmc};
use sentence_text::Sfi;
use settings::RmcConfig;
use std::marker::Model;
use tag_block::{MOST_COUNT, Packet};

/// What is kept of the messages that RMC is made from.
#[derive(Drop)]
pub struct RmcJoin {
    talker: [u8; 2],
    /// The system function identifier by which the gateway speaks.
    sfi: Sfi,
    time: LastOfRow,
    position: LastOfRow,
    /// Course and speed over ground.
    motion: LastOfRow,
    /// The magnetic heading, with the variation.
    heading: LastOfRow,
    /// How many lines were said, modulo [`MOST_COUNT`].
    count: u16,
}

impl Model for RmcJoin {
    ghost use Rattle.std.specs.Prelude.{◌<◌, IsTrue};
    ghost use Rattle.std.specs.List.{list_all};
    ghost use Rattle.sentence_text.specs.Byte.{is_capital};
    ghost use Rattle.tag_block.specs.Tag.{most_count};
    ghost use Rattle.parts.specs.Picked.{IsMessageValid};
    ghost use Rattle.joined_rmc.specs.Kept.{Join};

    ghost Value = { Join };

    ghost view = { λ j. record {
      talker = j.talker;
      sfi = j.sfi;
      time = j.time;
      position = j.position;
      motion = j.motion;
      heading = j.heading;
      count = j.count;
    } };

    ghost invariant = { λ j. IsTrue (list_all is_capital j.talker) × IsMessageValid j.time.message × IsMessageValid j.position.message
        × IsMessageValid j.motion.message × IsMessageValid j.heading.message × (j.count < most_count) };
}

impl RmcJoin {
    /// With nothing kept, of a gateway that speaks by this system function identifier. A timeout is how long a message of the row
    /// counts, in milliseconds, by the row's number.
    pub fn new(config: &RmcConfig, sfi: Sfi, timeouts: &[u32; ROWS]) -> RmcJoin
        requires { IsTrue (list_all is_capital config.now.talker) }
        ensures kept { result ≡ empty_join config.now.talker sfi timeouts.now }
        ensures stands { (c : Settings) (s : ℕ) → JoinStands (rule_by config.now sfi timeouts.now) c s [] result }
    {
        RmcJoin {
            talker: config.talker,
            sfi,
            time: LastOfRow::new(timeouts[Row::Time as usize]),
            position: LastOfRow::new(timeouts[Row::Position as usize]),
            motion: LastOfRow::new(timeouts[Row::CourseSpeed as usize]),
            heading: LastOfRow::new(timeouts[Row::HeadingMagnetic as usize]),
            count: 0,
        }
    }

    /// Takes what a step of the gateway left that accepted its event. Says whether it gives RMC, whose datagram the packet then holds.
    pub fn after(&mut self, gateway: &Gateway, emits: &Outbox, packet: &mut Packet) -> bool
        requires empty { packet.old.items ≡ [] }
        ensures history { IsJoinStep gateway.now emits.now self.old self.new result packet.new.items }
    {
        let moment = gateway.moment();
        self.forget_lost(gateway);
        self.take(moment, gateway, emits, packet)
    }

    /// Takes the message that the step at this moment selected, or none, as most steps do.
    #[inline(always)]
    fn take(&mut self, moment: u64, gateway: &Gateway, emits: &Outbox, packet: &mut Packet) -> bool
        requires empty { packet.old.items ≡ [] }
        ensures after { self.new ≡ join_with (last_picked gateway.now emits.now) self.old }
        ensures says { result ≡ is_due_message (last_picked gateway.now emits.now) }
        ensures packet { packet.new.items ≡ bytes_in (with_says moment (last_picked gateway.now emits.now) self.old) }
    {
        if emits.selected() {
            self.take_selected(moment, gateway, emits, packet)
        } else {
            false
        }
    }

    /// The same, where it selected one.
    #[inline(never)]
    fn take_selected(
        &mut self,
        moment: u64,
        gateway: &Gateway,
        emits: &Outbox,
        packet: &mut Packet,
    ) -> bool
        requires empty { packet.old.items ≡ [] }
        ensures after { self.new ≡ join_with (last_picked gateway.now emits.now) self.old }
        ensures says { result ≡ is_due_message (last_picked gateway.now emits.now) }
        ensures packet { packet.new.items ≡ bytes_in (with_says moment (last_picked gateway.now emits.now) self.old) }
    {
        match SelectedMessage::of(gateway, emits) {
            None => false,
            Some(new) => self.hear(moment, &new, packet),
        }
    }

    /// Forgets each message whose sender lost its address.
    fn forget_lost(&mut self, gateway: &Gateway)
        ensures { self.new ≡ rows_held (name_held gateway.now.addresses.claims.holders) self.old }
    {
        self.time.forget_lost(gateway);
        self.position.forget_lost(gateway);
        self.motion.forget_lost(gateway);
        self.heading.forget_lost(gateway);
    }

    /// Hears the message that was selected at this moment.
    #[inline(always)]
    fn hear(&mut self, moment: u64, new: &SelectedMessage, packet: &mut Packet) -> bool
        requires empty { packet.old.items ≡ [] }
        requires valid { IsValid new.now.reading }
        ensures after { self.new ≡ join_with (Some new.now) self.old }
        ensures says { result ≡ is_due_message (Some new.now) }
        ensures packet { packet.new.items ≡ bytes_in (with_says moment (Some new.now) self.old) }
    {
        self.keep_newer(new);
        let due = says_position(new);
        if due {
            self.say(moment, packet);
        }
        due
    }

    /// Keeps the newer message of its row.
    fn keep_newer(&mut self, new: &SelectedMessage)
        requires { IsValid new.now.reading }
        ensures { self.new ≡ rows_with (Some new.now) self.old }
    {
        self.time.keep_newer(Row::Time, new);
        self.position.keep_newer(Row::Position, new);
        self.motion.keep_newer(Row::CourseSpeed, new);
        self.heading.keep_newer(Row::HeadingMagnetic, new);
    }

    /// Writes the datagram, and counts its line.
    fn say(&mut self, moment: u64, packet: &mut Packet)
        requires { packet.old.items ≡ [] }
        ensures count { self.new ≡ counted self.old }
        ensures packet { packet.new.items ≡ datagram_in moment self.old }
    {
        let says = self.minimum(moment);
        write_datagram(self.talker, self.sfi, self.count, &says, packet);
        self.count = (self.count + 1) % MOST_COUNT;
    }

    /// What is said at a moment.
    fn minimum(&self, moment: u64) -> Minimum
        ensures value { result ≡ minimum_in moment self.now }
        ensures valid { IsMinimum result }
    {
        minimum(
            self.time.says(moment),
            self.position.says(moment),
            self.motion.says(moment),
            self.heading.says(moment),
        )
    }
}

/// Whether the message says where the ship is.
fn says_position(message: &SelectedMessage) -> bool
    ensures { result ≡ says_position message.now.reading }
{
    is_of(message, Row::Position) && usable(&message.reading)
}

/// Writes the datagram of these values. So many lines were said before.
fn write_datagram(talker: [u8; 2], source: Sfi, before: u16, says: &Minimum, packet: &mut Packet)
    requires empty { packet.old.items ≡ [] }
    requires talker { IsTrue (list_all is_capital talker) }
    requires values { IsMinimum says.now }
    ensures { packet.new.items ≡ datagram_by source talker before says.now }
{
    let mut sentence = SentenceText::default();
    write_rmc(talker, says, &mut sentence);
    write_sentence(source, before, &sentence.bytes, packet);
}
