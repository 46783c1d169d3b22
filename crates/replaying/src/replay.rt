//! The lines of a capture, answered by a bridge.
ghost use Rattle.std.specs.Prelude.{◌≡◌, Option};
ghost use Rattle.gate_outside.specs.Faults.{Rose};
ghost use Rattle.capture_stream.specs.Progress.{Ends, Steady};
ghost use Rattle.bridge.specs.BridgeSettings.{BridgeSettings};
ghost use Rattle.bridge.specs.Running.{Running, RunningStands};
ghost use Rattle.replaying.specs.Replayed.{IsReplayFrom};

use crate::sending::{open, send_line, send_output};
use bridge::{Bridge, moment_of};
use capture_stream::{Answers, Ending, Writer, answer_capture};
use capture_text::LineRule;
use gate_events::{Detail, Emit, Event, Report};
use gate_outside::{Failed, Sink, Source};

/// A bridge that is lent for a capture.
#[derive(Drop)]
struct Replay<'a> {
    bridge: &'a mut Bridge,
}

/// Each line is answered by what the bridge leaves at its event; the first event starts it.
impl Answers for Replay<'_> {
    ghost use Rattle.replaying.specs.Replaying.{IsAnswer};

    ghost gives = { IsAnswer };

    // What is kept goes on as the events say, whatever becomes of the text.
    fn answer_event<K: Sink>(
        &mut self,
        number: u64,
        event: &Event<'_>,
        writer: &mut Writer,
        out: &mut K,
    ) -> Result<(), Failed> {
        let _number = number;
        let bridge = &mut *self.bridge;
        let opened = open(bridge, moment_of(event), writer, out);
        bridge.take(event);
        send_output(opened, bridge, bridge.moment(), writer, out)
    }

    fn answer_refusal<K: Sink>(
        &mut self,
        number: u64,
        rule: LineRule,
        writer: &mut Writer,
        out: &mut K,
    ) -> Result<(), Failed> {
        let report = Report {
            rule: rule.number(),
            detail: Detail::Line(number),
        };
        send_line(&Emit::Report(report), self.bridge.moment(), writer, out)
    }
}

/// Answers each line of a capture by what the bridge leaves at its event, to the end of the input or until a call fails, as
/// [`answer_capture`] goes over them. The first event starts the bridge, where it wasn't started.
pub fn replay_capture<S: Source, K: Sink>(bridge: &mut Bridge, input: &mut S, out: &mut K) -> Ending
    ensures ends { (p : BridgeSettings) (g : Option Running) → RunningStands p g bridge.old
        → Ends (IsReplayFrom p g) (S.left input.old) (S.left input.new) (K.taken out.old) (K.taken out.new) result }
    ensures source { result ≡ Ending.SourceFailed → Rose (S.fault_count input.old) (S.fault_count input.new) }
    ensures sink { result ≡ Ending.SinkFailed → Rose (K.fault_count out.old) (K.fault_count out.new) }
    ensures steady { Steady (S.fault_count input.old) (S.fault_count input.new) (K.fault_count out.old) (K.fault_count out.new) result }
{
    answer_capture(&mut Replay { bridge }, input, out)
}
