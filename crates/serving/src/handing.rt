//! What goes out: frames to the bus, datagrams to the network, reports and recorded lines to the sink, each at once.
ghost use Rattle.std.specs.Prelude.{◌≡◌, ◌∷◌, [], ◌++◌, codes, drop, take};
ghost use Rattle.report_rules.specs.Rules.{send_failed};
ghost use Rattle.n2k_id.specs.Frame.{IsFrame, bus_frame};
ghost use Rattle.capture_text.specs.Writing.{frame_text, time_text};
ghost use Rattle.gate_events.specs.Emit.{CanWrite};
ghost use Rattle.gate_outside.specs.Link.{Sends};
ghost use Rattle.gate_outbox.specs.Output.{emit_of};
ghost use Rattle.history.specs.Emits.{at, report_of};
ghost use Rattle.bridge.specs.Kept.{output_of};
ghost use Rattle.serving.specs.Handing.{Hands, Takes, WritesReport};
ghost use Rattle.serving.specs.Served.{outside};
ghost use Rattle.serving.specs.Turns.{all_made};

use arrayvec::ArrayVec;
use bridge::Bridge;
use capture_stream::send_now;
use capture_text::{LONGEST_LINE, write_emit};
use gate_events::{Detail, Emit, Report};
use gate_outside::{Failed, Link, Sink};
use n2k_id::Frame;
use report_rules::SEND_FAILED;
use sentence_text::Group;

pub(crate) type Line = ArrayVec<u8, LONGEST_LINE>;

/// The most bytes of a line with its LF.
const LONGEST_ENDED: usize = LONGEST_LINE + 1;

/// Hands on what the bridge's last call left, at this moment, in its order.
pub(crate) fn hand_on<K: Sink, B: Link, E: Link>(
    bridge: &Bridge,
    moment: u64,
    out: &mut K,
    bus: &mut B,
    net: &mut E,
) -> Result<(), Failed>
    ensures { Hands (outside (B.traffic bus.old) (E.traffic net.old) (K.taken out.old) (K.fault_count out.old))
        (outside (B.traffic bus.new) (E.traffic net.new) (K.taken out.new) (K.fault_count out.new)) (all_made (at moment (output_of bridge.now))) result }
{
    for place in 0..bridge.len() {
        match hand_at(bridge, place, moment, out, bus, net) {
            Ok(()) => {}
            Err(Failed) => return Err(Failed),
        }
    }
    Ok(())
}

/// Hands on the emit at a place, at this moment: nothing beyond the list.
fn hand_at<K: Sink, B: Link, E: Link>(
    bridge: &Bridge,
    place: usize,
    moment: u64,
    out: &mut K,
    bus: &mut B,
    net: &mut E,
) -> Result<(), Failed>
    ensures { Hands (outside (B.traffic bus.old) (E.traffic net.old) (K.taken out.old) (K.fault_count out.old))
        (outside (B.traffic bus.new) (E.traffic net.new) (K.taken out.new) (K.fault_count out.new))
        (all_made (at moment (take 1 (drop place (output_of bridge.now))))) result }
{
    match bridge.emit(place) {
        Some(emit) => hand(&emit, moment, out, bus, net),
        None => Ok(()),
    }
}

/// Hands on an emit at this moment. What can't be sent is reported in its place.
fn hand<K: Sink, B: Link, E: Link>(
    emit: &Emit<'_>,
    moment: u64,
    out: &mut K,
    bus: &mut B,
    net: &mut E,
) -> Result<(), Failed>
    requires { CanWrite emit.now }
    ensures { Hands (outside (B.traffic bus.old) (E.traffic net.old) (K.taken out.old) (K.fault_count out.old))
        (outside (B.traffic bus.new) (E.traffic net.new) (K.taken out.new) (K.fault_count out.new))
        (all_made (record { moment = moment; emit = emit_of emit.now } ∷ [])) result }
{
    match emit {
        Emit::Can(frame) => match send_frame(frame, moment, bus) {
            Ok(()) => Ok(()),
            Err(Failed) => write_report(unsent(Detail::Bus), moment, out),
        },
        Emit::Net(group, bytes) => match net.send(*group, bytes) {
            Ok(()) => Ok(()),
            Err(Failed) => write_report(unsent(Detail::Net), moment, out),
        },
        Emit::Report(report) => write_report(*report, moment, out),
    }
}

/// The report of what couldn't be sent over a link.
fn unsent(link: Detail) -> Report
    ensures { result ≡ report_of send_failed link }
{
    Report {
        rule: SEND_FAILED,
        detail: link,
    }
}

/// Sends a frame to the bus, as its line of a capture.
fn send_frame<B: Link>(frame: &Frame, moment: u64, bus: &mut B) -> Result<(), Failed>
    requires { IsFrame frame.now }
    ensures { Sends (codes "CAN0", time_text moment ++ frame_text (bus_frame frame.now)) (B.traffic bus.old) (B.traffic bus.new) result }
{
    let mut line = Line::new();
    write_emit(&Emit::Can(*frame), moment, &mut line);
    bus.send(bus_group(), line.as_slice())
}

/// The group under which frames go to the bus.
fn bus_group() -> Group
    ensures { result ≡ codes "CAN0" }
{
    Group::of(b"CAN0").unwrap()
}

/// Writes the line of a report at this moment, in one piece.
pub(crate) fn write_report<K: Sink>(report: Report, moment: u64, out: &mut K) -> Result<(), Failed>
    ensures { WritesReport moment report (K.taken out.old) (K.taken out.new) (K.fault_count out.old) (K.fault_count out.new) result }
{
    let mut line = Line::new();
    write_emit(&Emit::Report(report), moment, &mut line);
    write_line(&line, out)
}

/// Writes a line and its end, in one piece.
#[tactic(auto, using(crate::proofs::Items::taken_so))]
pub(crate) fn write_line<K: Sink>(line: &Line, out: &mut K) -> Result<(), Failed>
    ensures { Takes (K.taken out.old) (K.taken out.new) (K.fault_count out.old) (K.fault_count out.new) (line.now.items ++ 10 ∷ []) result }
{
    send_now(with_line_end(line).as_slice(), out)
}

/// A line with its LF.
fn with_line_end(line: &Line) -> ArrayVec<u8, LONGEST_ENDED>
    ensures { result.items ≡ line.now.items ++ 10 ∷ [] }
{
    let mut text = ArrayVec::new();
    let _fits = text.try_extend_from_slice(line.as_slice());
    text.push(b'\n');
    text
}
