//! Heartbeats on the network: HBT (IEC 61162-1).
ghost use Rattle.std.specs.Prelude.{◌≡◌, ◌+◌, ◌<◌, ◌&&◌, [], ◌∷◌, false, is_some, not};
ghost use Rattle.gate_outbox.specs.Output.{no_emits, with_posted};
ghost use Rattle.settings.specs.Heartbeat.{IsNetHeartbeat};
ghost use Rattle.parts.specs.Lanes.{given_output, given_plain};
ghost use Rattle.heartbeats.specs.BeatOut.{hbt_emit, hbt_text};
ghost use Rattle.heartbeats.specs.Beats.{NetTakes};
ghost use Rattle.heartbeats.specs.Kept.{net_after, net_opened, net_passes, net_posts};

use crate::due::due_by;
use gate_outbox::Emits;
use parts::{Gateway, Given, Step, moment_of};
use sentence_fields::Field::{Decimal, Digits, Letter};
use sentence_fields::written_unit::WrittenUnit;
use sentence_fields::{SentenceText, letter_where, write_sentence};
use sentence_text::Sfi;
use settings::NetHeartbeat;
use std::marker::Model;
use tag_block::MOST_COUNT;

/// Seconds, with one decimal.
const SECONDS: WrittenUnit = WrittenUnit {
    num: 10,
    den: 1,
    places: 1,
    largest: 999,
    digits: 4,
};

/// Heartbeats on the network.
#[derive(Drop)]
pub(crate) struct NetBeats {
    config: NetHeartbeat,
    /// The system function identifier by which the gateway speaks.
    sfi: Sfi,
    /// How many were due up to the last event.
    due: u64,
    /// How many were said.
    count: u64,
}

impl Model for NetBeats {
    ghost use Rattle.std.specs.Prelude.{◌≤◌};
    ghost use Rattle.settings.specs.Heartbeat.{IsNetHeartbeat};
    ghost use Rattle.heartbeats.specs.Kept.{NetKept};

    ghost Value = { NetKept };

    ghost view = { λ b. record { config = b.config; sfi = b.sfi; due = b.due; count = b.count } };

    ghost invariant = { λ b. IsNetHeartbeat b.config × (b.count ≤ b.due) };
}

impl NetBeats {
    /// None was said yet, of a gateway that speaks by this system function identifier.
    pub(crate) fn new(config: &NetHeartbeat, sfi: Sfi) -> NetBeats
        requires { IsNetHeartbeat config.now }
        ensures { result ≡ net_opened config.now sfi }
    {
        NetBeats {
            config: *config,
            sfi,
            due: 0,
            count: 0,
        }
    }

    /// Takes the moment of an event, and whether all is well then. Says whether a heartbeat is due.
    fn pass(&mut self, start: u64, moment: u64, is_well: bool, emits: &mut Emits<0>) -> bool
        requires { emits.old ≡ no_emits }
        ensures kept { self.new ≡ net_after start moment self.old }
        ensures given { emits.new ≡ record { told = []; posted = net_posts start moment is_well self.old } }
        ensures due { result ≡ net_passes start moment self.old }
    {
        let due = due_by(self.config.every_s, start, moment);
        if due <= self.due {
            return false;
        }
        self.due = due;
        self.say(is_well, emits);
        true
    }

    /// Says one, and counts it.
    #[tactic(auto, using(datagram450::proofs::Counts::counted_modulo))]
    fn say(&mut self, is_well: bool, emits: &mut Emits<0>)
        requires { self.old.count < self.old.due }
        ensures kept { self.new ≡ record self.old { count = self.old.count + 1 } }
        ensures given { emits.new ≡ with_posted emits.old (hbt_emit self.old.config self.old.sfi is_well self.old.count ∷ []) }
    {
        let mut line = SentenceText::default();
        write_hbt(&self.config, is_well, self.count, &mut line);
        let before = self.count % u64::from(MOST_COUNT);
        let datagram = emits.post(self.config.group);
        datagram450::write_sentence(self.sfi, before as u16, &line.bytes, &mut datagram.packet);
        self.count += 1;
    }
}

/// Writes the sentence `$IIHBT,60.0,A,0*1B`: 1 the seconds between two, 2 `A` where all is well, else `V`, 3 how many there were before, modulo 10.
fn write_hbt(config: &NetHeartbeat, is_well: bool, before: u64, out: &mut SentenceText)
    requires config { IsNetHeartbeat config.now }
    requires empty { out.old.bytes.items ≡ [] }
    ensures { out.new.bytes.items ≡ hbt_text config.now.talker config.now.every_s is_well before }
{
    let fields = [
        Decimal(Some(i64::from(config.every_s)), SECONDS),
        Letter(letter_where(is_well, b'A', b'V')),
        Digits(Some(before % 10), 1),
    ];
    write_sentence(config.talker, *b"HBT", &fields, out);
}

/// Whether the gateway has an address, and no watched row is silent.
fn is_well(gateway: &Gateway, is_silent: bool) -> bool
    ensures { result ≡ (is_some gateway.now.addresses.claims.own && not is_silent) }
{
    gateway.own().is_some() && !is_silent
}

/// Takes an event behind which a watched row is silent or not, where heartbeats are said at all.
pub(crate) fn after_event(
    beats: &mut Option<NetBeats>,
    step: &Step<'_>,
    is_silent: bool,
    place: &mut Given<0>,
) -> bool
    requires empty { given_output place.old ≡ [] }
    ensures takes { NetTakes step.now is_silent beats.old beats.new place.new }
    ensures unsaid { given_plain place.new ≡ given_plain place.old }
    ensures gave { result ≡ false → given_output place.new ≡ [] }
{
    let well = is_well(step.gateway, is_silent);
    match beats {
        None => false,
        Some(beats) => beats.pass(step.start, moment_of(step.event), well, &mut place.emits),
    }
}
