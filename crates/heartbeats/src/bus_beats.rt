//! Heartbeats on the bus: frames of PGN 126993.
ghost use Rattle.std.specs.Prelude.{◌≡◌, ◌≤◌, ◌∷◌, [], false};
ghost use Rattle.n2k_id.specs.Frame.{IsFrame, bus_frame};
ghost use Rattle.gate_events.specs.Emit.{can};
ghost use Rattle.gate_outbox.specs.Output.{no_emits};
ghost use Rattle.settings.specs.Heartbeat.{IsBusInterval};
ghost use Rattle.parts.specs.Lanes.{given_output, given_plain};
ghost use Rattle.heartbeats.specs.BeatOut.{beat_from};
ghost use Rattle.heartbeats.specs.Beats.{BusTakes};
ghost use Rattle.heartbeats.specs.Kept.{bus_after, bus_opened, bus_tells};

use crate::due::{due_by, last_due};
use gate_outbox::Emits;
use gate_outbox::frames::frame_of;
use n2k_id::address::ALL;
use n2k_id::{Frame, Parts};
use parts::{Gateway, Given, Step, moment_of};
use std::marker::Model;

/// The parameter group of heartbeats.
const HEARTBEAT: u32 = 126_993;

const PRIORITY: u8 = 7;

/// How many numbers a heartbeat can have, from 0.
const NUMBERS: u64 = 253;

/// Heartbeats on the bus.
#[derive(Drop)]
pub(crate) struct BusBeats {
    /// How many seconds one is due after the other.
    every_s: u32,
    /// How many were due up to the last event.
    due: u64,
    /// How many were sent.
    count: u64,
}

impl Model for BusBeats {
    ghost use Rattle.std.specs.Prelude.{◌≤◌};
    ghost use Rattle.settings.specs.Heartbeat.{IsBusInterval};
    ghost use Rattle.heartbeats.specs.Kept.{BusKept};

    ghost Value = { BusKept };

    ghost view = { λ b. record { every = b.every_s; due = b.due; count = b.count } };

    ghost invariant = { λ b. IsBusInterval b.every_s × (b.count ≤ b.due) };
}

impl BusBeats {
    /// None was sent yet.
    pub(crate) fn new(every_s: u32) -> BusBeats
        requires { IsBusInterval every_s }
        ensures { result ≡ bus_opened every_s }
    {
        BusBeats {
            every_s,
            due: 0,
            count: 0,
        }
    }

    /// Takes the moment of an event that the gateway has taken. One that isn't sent at the event at which it is due is never sent, and not counted.
    fn pass(&mut self, gateway: &Gateway, start: u64, moment: u64, emits: &mut Emits<1>) -> bool
        requires { emits.old ≡ no_emits }
        ensures kept { self.new ≡ bus_after gateway.now.addresses.claims start moment self.old }
        ensures given { emits.new ≡ record { told = bus_tells gateway.now.addresses.claims start moment self.old; posted = [] } }
        ensures none { result ≡ false → emits.new ≡ no_emits }
    {
        let due = due_by(self.every_s, start, moment);
        if due <= self.due {
            return false;
        }
        self.due = due;
        let Some(own) = gateway.own() else {
            return false;
        };
        if !gateway.ready_at(last_due(self.every_s, start, moment)) {
            return false;
        }
        emits.send(heartbeat(own, self.count));
        self.count += 1;
        true
    }
}

/// The frame from the own address, before which so many were sent. The interval and the states of the device aren't available.
#[tactic(auto, unfolding(n2k_id::specs::Identifier::has_destination))]
fn heartbeat(own: u8, before: u64) -> Frame
    ensures frame { can (bus_frame result) ∷ [] ≡ beat_from (Some own) before }
    ensures valid { IsFrame result }
{
    let parts = Parts {
        priority: PRIORITY,
        pgn: HEARTBEAT,
        destination: ALL,
        source: own,
    };
    let number = (before % NUMBERS) as u8;
    frame_of(parts, &[0xFF, 0xFF, number, 0xFF, 0xFF, 0xFF, 0xFF, 0xFF])
}

/// Takes an event, where heartbeats are sent at all.
pub(crate) fn after_event(
    beats: &mut Option<BusBeats>,
    step: &Step<'_>,
    place: &mut Given<1>,
) -> bool
    requires empty { given_output place.old ≡ [] }
    ensures takes { BusTakes step.now beats.old beats.new place.new }
    ensures unsaid { given_plain place.new ≡ given_plain place.old }
    ensures gave { result ≡ false → given_output place.new ≡ [] }
{
    match beats {
        None => false,
        Some(beats) => beats.pass(
            step.gateway,
            step.start,
            moment_of(step.event),
            &mut place.emits,
        ),
    }
}
