//! The turns of a gateway between two links that live.
ghost use Rattle.std.specs.Prelude.{◌≡◌, ◌⊎◌, ◌∷◌, [], true};
ghost use Rattle.capture_text.specs.Writing.{CanRecord};
ghost use Rattle.gate_events.specs.Event.{view};
ghost use Rattle.bridge.specs.Steps.{IsEventValid};
ghost use Rattle.gate_outside.specs.Faults.{Rose};
ghost use Rattle.gate_outside.specs.Link.{Outcome};
ghost use Rattle.bridge.specs.Running.{RunningStands};
ghost use Rattle.serving.specs.Handing.{Does, Ends, Hears, RunStands, TakesTurn};
ghost use Rattle.serving.specs.Served.{NetFits, outside};
ghost use Rattle.serving.specs.Turns.{from_bus, from_net, with_start, tick_behind, with_came, with_event};
ghost use Rattle.command_line.specs.Statuses.{number};

use crate::arrival::{front, receive_frame};
use crate::handing::{hand_on, write_report};
use crate::recording::{record_event, record_start};
use bridge::Bridge;
use command_line::Status;
use gate_events::{Detail, Event, Report};
use gate_outside::{Arrival, Clock, Failed, LARGEST_ARRIVAL, Link, Sink};
use report_rules::RECEIVE_FAILED;

/// What can't be received from the network is reported.
const UNHEARD: Report = Report {
    rule: RECEIVE_FAILED,
    detail: Detail::Net,
};

/// Takes so many turns of a bridge between two links that the caller has attached, and answers a status.
///
/// A turn reads the clock once; its moment is that reading, in microseconds, and never one before the bridge's. The first turn starts the
/// bridge. Then the bus is asked once for an arrival, and then the network; where neither gives an event, time passes for the bridge. An
/// arrival of the bus is a line of a capture that says a frame; its own time isn't read. Frames go to the bus as such lines, under the group
/// `CAN0`, datagrams to the network under their group, and reports to the sink, each at once. What can't be received or sent is reported
/// (rules 51 and 50), and the turn goes on.
///
/// Where the bridge records, what came is written to the sink too, as lines of a capture, each in front of all that goes out for it:
/// `tick start` at the start, an event of a frame on `can0` and one of a datagram on `udp0` under the group `RECV`, both at the turn's
/// moment, and `tick` where time passes and something goes out for it.
///
/// | Status | Where |
/// |---|---|
/// | 0 | all turns were taken, and all that they make went out |
/// | 4 | only where the sink's faults rose; the first items went out, the last of them a report or a recorded line, in part |
pub fn serve_turns<K: Sink, B: Link, E: Link, C: Clock>(
    bridge: &mut Bridge,
    turns: u32,
    out: &mut K,
    bus: &mut B,
    net: &mut E,
    clock: &mut C,
) -> u8
    ensures status { (result ≡ 0) ⊎ (result ≡ 4) }
    ensures ends { Ends turns bridge.old (C.readings clock.old) (C.readings clock.new)
        (outside (B.traffic bus.old) (E.traffic net.old) (K.taken out.old) (K.fault_count out.old))
        (outside (B.traffic bus.new) (E.traffic net.new) (K.taken out.new) (K.fault_count out.new)) result }
    ensures cause { result ≡ 4 → Rose (K.fault_count out.old) (K.fault_count out.new) }
    ensures complete { (Rose (K.fault_count out.old) (K.fault_count out.new) → ⊥) → result ≡ 0 }
{
    take_turns(bridge, turns, out, bus, net, clock).number()
}

/// Takes so many turns of a bridge between two links, as [`serve_turns`] says, whose number the status has.
pub fn take_turns<K: Sink, B: Link, E: Link, C: Clock>(
    bridge: &mut Bridge,
    turns: u32,
    out: &mut K,
    bus: &mut B,
    net: &mut E,
    clock: &mut C,
) -> Status
    ensures status { (number result ≡ 0) ⊎ (number result ≡ 4) }
    ensures ends { Ends turns bridge.old (C.readings clock.old) (C.readings clock.new)
        (outside (B.traffic bus.old) (E.traffic net.old) (K.taken out.old) (K.fault_count out.old))
        (outside (B.traffic bus.new) (E.traffic net.new) (K.taken out.new) (K.fault_count out.new)) (number result) }
    ensures cause { number result ≡ 4 → Rose (K.fault_count out.old) (K.fault_count out.new) }
    ensures complete { (Rose (K.fault_count out.old) (K.fault_count out.new) → ⊥) → number result ≡ 0 }
{
    for turn in 0..turns {
        match take_turn(bridge, u64::from(turn) + 1, out, bus, net, clock) {
            Ok(()) => {}
            Err(Failed) => return Status::SinkFailed,
        }
    }
    Status::Done
}

/// Takes the turn of this number, counted from 1.
fn take_turn<K: Sink, B: Link, E: Link, C: Clock>(
    bridge: &mut Bridge,
    number: u64,
    out: &mut K,
    bus: &mut B,
    net: &mut E,
    clock: &mut C,
) -> Result<(), Failed>
    ensures { TakesTurn number bridge.old bridge.new (C.readings clock.old) (C.readings clock.new)
        (outside (B.traffic bus.old) (E.traffic net.old) (K.taken out.old) (K.fault_count out.old))
        (outside (B.traffic bus.new) (E.traffic net.new) (K.taken out.new) (K.fault_count out.new)) result }
{
    let moment = clock.now().max(bridge.moment());
    match open(bridge, moment, out, bus, net) {
        Ok(()) => {}
        Err(Failed) => return Err(Failed),
    }
    let by_bus = match hear_bus(bridge, number, moment, out, bus, net) {
        Ok(heard) => heard,
        Err(Failed) => return Err(Failed),
    };
    let by_net = match hear_net(bridge, moment, out, bus, net) {
        Ok(heard) => heard,
        Err(Failed) => return Err(Failed),
    };
    pass_time(bridge, by_bus || by_net, moment, out, bus, net)
}

/// Starts the bridge at a moment, where it wasn't started.
fn open<K: Sink, B: Link, E: Link>(
    bridge: &mut Bridge,
    moment: u64,
    out: &mut K,
    bus: &mut B,
    net: &mut E,
) -> Result<(), Failed>
    ensures does { Does RunningStands (λ p g. with_start p moment g) [] [] bridge.old bridge.new
        (outside (B.traffic bus.old) (E.traffic net.old) (K.taken out.old) (K.fault_count out.old))
        (outside (B.traffic bus.new) (E.traffic net.new) (K.taken out.new) (K.fault_count out.new)) result }
    ensures started { bridge.new.started ≡ true }
{
    if bridge.started() {
        return Ok(());
    }
    bridge.start(moment);
    match record_start(bridge, moment, out) {
        Ok(()) => {}
        Err(Failed) => return Err(Failed),
    }
    hand_on(bridge, moment, out, bus, net)
}

/// Receives once on the bus, and answers what came. Says whether it was an event.
fn hear_bus<K: Sink, B: Link, E: Link>(
    bridge: &mut Bridge,
    number: u64,
    moment: u64,
    out: &mut K,
    bus: &mut B,
    net: &mut E,
) -> Result<bool, Failed>
    requires { bridge.old.started ≡ true }
    ensures heard { (outcome : Outcome) × Hears moment (from_bus moment number outcome) (outcome ∷ []) [] bridge.old bridge.new
        (outside (B.traffic bus.old) (E.traffic net.old) (K.taken out.old) (K.fault_count out.old))
        (outside (B.traffic bus.new) (E.traffic net.new) (K.taken out.new) (K.fault_count out.new)) result }
    ensures started { bridge.new.started ≡ true }
{
    match receive_frame(number, bus) {
        Ok(Some(frame)) => {
            match take(bridge, &Event::Frame { moment, frame }, out, bus, net) {
                Ok(()) => Ok(true),
                Err(Failed) => Err(Failed),
            }
        }
        Ok(None) => Ok(false),
        Err(report) => match write_report(report, moment, out) {
            Ok(()) => Ok(false),
            Err(Failed) => Err(Failed),
        },
    }
}

/// Receives once on the network, and answers what came. Says whether it was an event.
fn hear_net<K: Sink, B: Link, E: Link>(
    bridge: &mut Bridge,
    moment: u64,
    out: &mut K,
    bus: &mut B,
    net: &mut E,
) -> Result<bool, Failed>
    requires { bridge.old.started ≡ true }
    ensures heard { (outcome : Outcome) × NetFits outcome × Hears moment (from_net moment outcome) [] (outcome ∷ []) bridge.old bridge.new
        (outside (B.traffic bus.old) (E.traffic net.old) (K.taken out.old) (K.fault_count out.old))
        (outside (B.traffic bus.new) (E.traffic net.new) (K.taken out.new) (K.fault_count out.new)) result }
    ensures started { bridge.new.started ≡ true }
{
    let mut buffer = [0; LARGEST_ARRIVAL];
    match net.receive(&mut buffer) {
        Ok(Arrival::Bytes(count)) => {
            let bytes = front(&buffer, count);
            match take(bridge, &Event::Datagram { moment, bytes }, out, bus, net) {
                Ok(()) => Ok(true),
                Err(Failed) => Err(Failed),
            }
        }
        Ok(Arrival::Nothing) => Ok(false),
        Err(Failed) => match write_report(UNHEARD, moment, out) {
            Ok(()) => Ok(false),
            Err(Failed) => Err(Failed),
        },
    }
}

/// Lets time pass for the bridge, where nothing was heard.
fn pass_time<K: Sink, B: Link, E: Link>(
    bridge: &mut Bridge,
    heard: bool,
    moment: u64,
    out: &mut K,
    bus: &mut B,
    net: &mut E,
) -> Result<(), Failed>
    requires { bridge.old.started ≡ true }
    ensures { Does RunStands (λ p g. with_came p moment (tick_behind moment heard) g) [] [] bridge.old bridge.new
        (outside (B.traffic bus.old) (E.traffic net.old) (K.taken out.old) (K.fault_count out.old))
        (outside (B.traffic bus.new) (E.traffic net.new) (K.taken out.new) (K.fault_count out.new)) result }
{
    if heard {
        return Ok(());
    }
    take(bridge, &Event::Tick { moment }, out, bus, net)
}

/// Lets the bridge take an event, and hands on what it leaves. The event's line comes before it, where it has one.
fn take<K: Sink, B: Link, E: Link>(
    bridge: &mut Bridge,
    event: &Event<'_>,
    out: &mut K,
    bus: &mut B,
    net: &mut E,
) -> Result<(), Failed>
    requires started { bridge.old.started ≡ true }
    requires valid { IsEventValid event.now }
    requires can { CanRecord event.now }
    ensures does { Does RunStands (λ p g. with_event p (view event.now) g) [] [] bridge.old bridge.new
        (outside (B.traffic bus.old) (E.traffic net.old) (K.taken out.old) (K.fault_count out.old))
        (outside (B.traffic bus.new) (E.traffic net.new) (K.taken out.new) (K.fault_count out.new)) result }
    ensures started { bridge.new.started ≡ true }
{
    bridge.take(event);
    match record_event(bridge, event, out) {
        Ok(()) => {}
        Err(Failed) => return Err(Failed),
    }
    hand_on(bridge, bridge.moment(), out, bus, net)
}
