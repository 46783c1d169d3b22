//! What a bridge leaves, sent as lines at their moments.
ghost use Rattle.std.specs.Prelude.{◌≡◌, ◌++◌, ℕ, List, true, length};
ghost use Rattle.gate_events.specs.Emit.{CanWrite};
ghost use Rattle.capture_stream.specs.Writer.{Writes};
ghost use Rattle.gate_outbox.specs.Output.{emit_of};
ghost use Rattle.gate_outside.specs.Faults.{HasCause};
ghost use Rattle.capture_text.specs.Emitted.{line_of};
ghost use Rattle.bridge.specs.Kept.{output_of};
ghost use Rattle.replaying.specs.Replaying.{IsOpening, IsSent, SendsThen, output_text, line_at};

use bridge::Bridge;
use capture_stream::Writer;
use gate_events::Emit;
use gate_outside::{Failed, Sink};

/// Starts the bridge at a moment and sends what that leaves, where it wasn't started.
pub(crate) fn open<K: Sink>(
    bridge: &mut Bridge,
    moment: u64,
    writer: &mut Writer,
    out: &mut K,
) -> Result<(), Failed>
    ensures { (text : List ℕ) × IsOpening moment bridge.old text bridge.new
        × IsSent (K.taken out.old) (K.fault_count out.old) writer.old text (K.taken out.new) (K.fault_count out.new) writer.new result }
{
    if bridge.started() {
        return Ok(());
    }
    bridge.start(moment);
    send_lines(bridge, moment, writer, out)
}

/// Sends what the last call left, where all before was sent.
pub(crate) fn send_output<K: Sink>(
    sent: Result<(), Failed>,
    bridge: &Bridge,
    moment: u64,
    writer: &mut Writer,
    out: &mut K,
) -> Result<(), Failed>
    ensures { SendsThen (output_text moment bridge.now) (K.taken out.old) (K.fault_count out.old) writer.old sent
        (K.taken out.new) (K.fault_count out.new) writer.new result }
{
    match sent {
        Ok(()) => send_lines(bridge, moment, writer, out),
        Err(Failed) => Err(Failed),
    }
}

/// Sends the lines of what the last call left, at this moment. Most events leave nothing: then no line is made ready.
#[inline(always)]
fn send_lines<K: Sink>(
    bridge: &Bridge,
    moment: u64,
    writer: &mut Writer,
    out: &mut K,
) -> Result<(), Failed>
    ensures sent { Writes (K.taken out.old) (K.taken out.new) (writer.old ++ output_text moment bridge.now) writer.new result }
    ensures cause { HasCause (K.fault_count out.old) (K.fault_count out.new) result }
{
    let count = bridge.len();
    if count == 0 {
        return Ok(());
    }
    send_each(bridge, count, moment, writer, out)
}

/// Sends the lines of what the last call left, so many, at this moment.
#[inline(never)]
fn send_each<K: Sink>(
    bridge: &Bridge,
    count: usize,
    moment: u64,
    writer: &mut Writer,
    out: &mut K,
) -> Result<(), Failed>
    requires { count ≡ length (output_of bridge.now) }
    ensures sent { Writes (K.taken out.old) (K.taken out.new) (writer.old ++ output_text moment bridge.now) writer.new result }
    ensures cause { HasCause (K.fault_count out.old) (K.fault_count out.new) result }
{
    for place in 0..count {
        match send_at(bridge, place, moment, writer, out) {
            Ok(()) => {}
            Err(Failed) => return Err(Failed),
        }
    }
    Ok(())
}

/// Sends the line of the emit at a place, at this moment: nothing beyond the list.
fn send_at<K: Sink>(
    bridge: &Bridge,
    place: usize,
    moment: u64,
    writer: &mut Writer,
    out: &mut K,
) -> Result<(), Failed>
    ensures sent { Writes (K.taken out.old) (K.taken out.new) (writer.old ++ line_at moment place bridge.now) writer.new result }
    ensures cause { HasCause (K.fault_count out.old) (K.fault_count out.new) result }
{
    match bridge.emit(place) {
        Some(emit) => send_line(&emit, moment, writer, out),
        None => Ok(()),
    }
}

/// Sends the line of an emit at this moment.
pub(crate) fn send_line<K: Sink>(
    emit: &Emit<'_>,
    moment: u64,
    writer: &mut Writer,
    out: &mut K,
) -> Result<(), Failed>
    requires { CanWrite emit.now }
    ensures sent { Writes (K.taken out.old) (K.taken out.new)
        (writer.old ++ line_of (record { moment = moment; emit = emit_of emit.now })) writer.new result }
    ensures cause { HasCause (K.fault_count out.old) (K.fault_count out.new) result }
{
    writer.send_emit(emit, moment, out)
}
