//! What came, written down as a capture has it, where the bridge records.
ghost use Rattle.std.specs.Prelude.{◌≡◌, ◌≤◌, ◌&&◌, Option, length};
ghost use Rattle.gate_events.specs.Event.{view};
ghost use Rattle.gate_outside.specs.Link.{Traffic};
ghost use Rattle.capture_text.specs.Writing.{CanRecord};
ghost use Rattle.bridge.specs.Kept.{output_of};
ghost use Rattle.serving.specs.Handing.{Hands};
ghost use Rattle.serving.specs.Served.{outside};
ghost use Rattle.serving.specs.Turns.{event_line, is_recorded, received, recorded_where, start_line};

use crate::handing::{Line, write_line};
use bridge::Bridge;
use capture_text::write_event;
use gate_events::Event;
use gate_outside::{Failed, Sink};
use sentence_text::Group;

/// Writes the line of the start, where the bridge records.
pub(crate) fn record_start<K: Sink>(bridge: &Bridge, moment: u64, out: &mut K) -> Result<(), Failed>
    ensures { (bus net : Option Traffic) → Hands (outside bus net (K.taken out.old) (K.fault_count out.old))
        (outside bus net (K.taken out.new) (K.fault_count out.new)) (recorded_where bridge.now.records (start_line moment)) result }
{
    if bridge.records() {
        write_line(&start_line(moment), out)
    } else {
        Ok(())
    }
}

/// The line of the start.
fn start_line(moment: u64) -> Line
    ensures { result.items ≡ start_line moment }
{
    let mut line = event_line(&Event::Tick { moment });
    let _fits = line.try_extend_from_slice(b" start");
    line
}

/// Writes the line of an event that the bridge has taken, where the bridge records and the event has one.
pub(crate) fn record_event<K: Sink>(
    bridge: &Bridge,
    event: &Event<'_>,
    out: &mut K,
) -> Result<(), Failed>
    requires { CanRecord event.now }
    ensures { (bus net : Option Traffic) → Hands (outside bus net (K.taken out.old) (K.fault_count out.old))
        (outside bus net (K.taken out.new) (K.fault_count out.new))
        (recorded_where (bridge.now.records && is_recorded (view event.now) (output_of bridge.now)) (event_line (view event.now))) result }
{
    if is_recorded(bridge, event) {
        write_line(&event_line(event), out)
    } else {
        Ok(())
    }
}

/// Whether the bridge records and the event has a line: a tick only where the bridge left something.
fn is_recorded(bridge: &Bridge, event: &Event<'_>) -> bool
    ensures { result ≡ (bridge.now.records && is_recorded (view event.now) (output_of bridge.now)) }
{
    bridge.records()
        && match event {
            Event::Frame { .. } | Event::Datagram { .. } => true,
            Event::Tick { .. } => bridge.len() > 0,
        }
}

/// The line of an event.
fn event_line(event: &Event<'_>) -> Line
    requires { CanRecord event.now }
    ensures line { result.items ≡ event_line (view event.now) }
    ensures few { length result.items ≤ 3040 }
{
    let mut line = Line::new();
    write_event(event, received(), &mut line);
    line
}

/// The group of a datagram that came.
fn received() -> Group
    ensures { result ≡ received }
{
    Group::of(b"RECV").unwrap()
}
