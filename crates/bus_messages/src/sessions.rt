//! A frame of the transport protocol (ISO 11783-3), to all or to the gateway, from a source that holds its address.
ghost use Rattle.std.specs.Prelude.{◌≡◌, ◌&&◌, ◌==◌, ◌∷◌, [], nat_le, length};
ghost use Rattle.std.specs.Borrow.{sem};
ghost use Rattle.n2k_id.specs.Frame.{IsFrame, held_bytes};
ghost use Rattle.iso_transport.specs.Assembly.{fed_after};
ghost use Rattle.iso_transport.specs.Connection.{control_at};
ghost use Rattle.iso_transport.specs.Replies.{NamesPgn};
ghost use Rattle.iso_transport.specs.Rows.{ends_as};
ghost use Rattle.history.specs.Emits.{reported, replied};
ghost use Rattle.gate_model.specs.Sessions.{answer_of, carried_by, early_report, restarted_reports, refused_reports, refusal_report};
ghost use Rattle.bus_messages.specs.Lent.{lent_message};
ghost use Rattle.bus_messages.specs.SessionTold.{answer_in, comes_early, heard_reports, message_in, refusal_in};
ghost use Rattle.gate_outbox.specs.Output.{and_told, most_told};

use crate::messages::Message;
use gate_events::Report;
use gate_outbox::StepEmits;
use gate_outbox::frames::reply_from;
use gate_outbox::reports::of_source;
use iso_transport::{IsoAssembler, IsoFed, IsoKey, IsoOutcome, IsoRefusal, Reply};
use n2k_id::address::ALL;
use n2k_id::pgn::DATA_TRANSFER;
use n2k_id::{Frame, Parts};
use report_rules::{
    ISO_ABORTED, ISO_ORDER, ISO_ORPHAN, ISO_SIZE, NOT_READY, RESTARTED, SLOTS_FULL,
};

/// The control byte of a request to send (ISO 11783-3).
const REQUEST_TO_SEND: u8 = 16;

/// How many bytes a frame has that manages a connection.
const MANAGEMENT_BYTES: usize = 8;

/// Whether an RTS comes to the gateway before it may answer it.
pub fn comes_early(ready: bool, parts: &Parts, frame: &Frame) -> bool
    requires { IsFrame frame.now }
    ensures { result ≡ comes_early ready parts.now (held_bytes frame.now) }
{
    parts.destination != ALL && parts.pgn != DATA_TRANSFER && asks_to_send(frame.held()) && !ready
}

/// Whether the bytes of a frame that manages a connection are those of an RTS.
fn asks_to_send(bytes: &[u8]) -> bool
    ensures { result ≡ (nat_le 8 (length bytes.now) && (control_at bytes.now == 16)) }
{
    bytes.len() >= MANAGEMENT_BYTES && bytes[0] == REQUEST_TO_SEND
}

/// Reports an RTS that comes before the gateway may answer it, and opens nothing.
pub fn tell_early(parts: &Parts, out: &mut StepEmits)
    ensures { out.new ≡ and_told most_told out.old (reported (early_report parts.now ∷ [])) }
{
    out.tell(of_source(NOT_READY, parts.source, parts.pgn));
}

/// Takes a frame that the gateway may answer, and reports what it breaks. The message that it completes is lent.
#[tactic(auto, using(crate::proofs::SessionTelling::answered))]
pub fn hear<'a>(
    sessions: &'a mut IsoAssembler,
    own: Option<u8>,
    parts: &Parts,
    frame: &Frame,
    moment: u64,
    out: &mut StepEmits,
) -> IsoFed<'a>
    requires valid { IsFrame frame.now }
    ensures* after { sem 𝓛 (ends_as sessions.entry (fed_after ⟦<IsoKey as Ord>⟧.cmp sessions.old own parts.now (held_bytes frame.now) moment)) }
    ensures answer { answer_in result ≡ answer_of ⟦<IsoKey as Ord>⟧.cmp sessions.old own parts.now (held_bytes frame.now) moment }
    ensures emits { out.new ≡ and_told most_told out.old
        (reported (heard_reports parts.now (answer_of ⟦<IsoKey as Ord>⟧.cmp sessions.old own parts.now (held_bytes frame.now) moment))) }
    ensures reply { NamesPgn result.reply }
{
    let fed = sessions.feed(own, parts, frame, moment);
    tell_broken(parts, &fed, out);
    fed
}

/// The message that a frame completes.
pub fn message_in<'a>(outcome: IsoOutcome<'a>) -> Option<Message<'a>>
    ensures { lent_message result ≡ carried_by (message_in outcome.entry) }
{
    match outcome {
        IsoOutcome::Complete { pgn, view } => Some(Message {
            pgn,
            payload: view.bytes,
        }),
        _ => None,
    }
}

/// Reports that a message begins again, and why the frame is refused.
#[tactic(auto, using(gate_outbox::proofs::Telling::reported_more))]
fn tell_broken(parts: &Parts, fed: &IsoFed<'_>, out: &mut StepEmits)
    ensures { out.new ≡ and_told most_told out.old (reported (heard_reports parts.now (answer_in fed.now))) }
{
    tell_restarted(parts.source, fed.restarted, out);
    tell_refused(parts, &fed.outcome, out);
}

fn tell_restarted(source: u8, restarted: Option<u32>, out: &mut StepEmits)
    ensures emits { out.new ≡ and_told most_told out.old (reported (restarted_reports source restarted)) }
{
    match restarted {
        Some(pgn) => out.tell(of_source(RESTARTED, source, pgn)),
        None => {}
    }
}

fn tell_refused(parts: &Parts, outcome: &IsoOutcome<'_>, out: &mut StepEmits)
    ensures { out.new ≡ and_told most_told out.old (reported (refused_reports parts.now (refusal_in outcome.now))) }
{
    match outcome {
        IsoOutcome::Refused(refusal) => out.tell(refusal_report(parts, *refusal)),
        _ => {}
    }
}

/// Why a frame is refused: with its own PGN, or with that of the message that it opens or ends.
fn refusal_report(parts: &Parts, refusal: IsoRefusal) -> Report
    ensures { result ≡ refusal_report parts.now refusal }
{
    let (rule, pgn) = match refusal {
        IsoRefusal::Size => (ISO_SIZE, parts.pgn),
        IsoRefusal::Order => (ISO_ORDER, parts.pgn),
        IsoRefusal::Orphan => (ISO_ORPHAN, parts.pgn),
        IsoRefusal::Full(pgn) => (SLOTS_FULL, pgn),
        IsoRefusal::Aborted(pgn) => (ISO_ABORTED, pgn),
    };
    of_source(rule, parts.source, pgn)
}

/// Sends the reply from the own address, where there is one.
pub fn reply(own: Option<u8>, destination: u8, reply: Option<Reply>, out: &mut StepEmits)
    requires pgn { NamesPgn reply }
    ensures emits { out.new ≡ and_told most_told out.old (replied own destination reply) }
{
    match (own, reply) {
        (Some(own), Some(reply)) => out.send(reply_from(own, destination, &reply)),
        _ => {}
    }
}
