//! The messages that end before they are complete: what is overdue, and what was open of an address that changes hands.
ghost use Rattle.std.specs.Prelude.{◌≡◌, ◌^◌, ◌<◌};
ghost use Rattle.slot_views.specs.Slots.{remaining};
ghost use Rattle.slot_views.specs.Traces.{unexpired};
ghost use Rattle.fast_packet.specs.Assembly.{is_from as is_fast_from};
ghost use Rattle.iso_transport.specs.Assembly.{is_from, is_addressed};
ghost use Rattle.gate_model.specs.Endings.{sessions_overdue, sessions_lost};
ghost use Rattle.gate_outbox.specs.Output.{and_told, most_told};
ghost use Rattle.bus_messages.specs.Overdue.{overdue_session, lost_of};

use crate::fast;
use fast_packet::FastAssembler;
use gate_outbox::StepEmits;
use gate_outbox::frames::reply_from;
use gate_outbox::reports::of_source;
use iso_transport::abort_reason::TIMEOUT;
use iso_transport::{IsoAssembler, IsoEnded, Reply};
use report_rules::{CLAIM_LOST, EXPIRED};

/// Ends the sessions that are overdue at the moment, in the order of their keys. Where the gateway has an address, it tells the
/// sender of an addressed session.
pub fn end_sessions(sessions: &mut IsoAssembler, own: Option<u8>, moment: u64, out: &mut StepEmits)
    ensures sessions { sessions.new ≡ unexpired moment sessions.old }
    ensures emits { out.new ≡ and_told most_told out.old (sessions_overdue own sessions.old moment) }
{
    while let Some(ended) = sessions.expire_one(moment) {
        tell_overdue(own, ended, out);
    }
}

/// Tells of a session that was overdue.
fn tell_overdue(own: Option<u8>, ended: IsoEnded, out: &mut StepEmits)
    requires pgn { ended.pgn < 2 ^ 24 }
    ensures emits { out.new ≡ and_told most_told out.old (overdue_session own ended) }
{
    out.tell(of_source(EXPIRED, ended.source, ended.pgn));
    match own {
        Some(own) if ended.addressed => {
            let reply = Reply::Abort {
                reason: TIMEOUT,
                pgn: ended.pgn,
            };
            out.send(reply_from(own, ended.source, &reply));
        }
        _ => {}
    }
}

/// Drops all that is open of an address that changes hands.
#[tactic(auto, using(gate_outbox::proofs::Telling::told_more))]
pub fn drop_source(
    fast: &mut FastAssembler,
    sessions: &mut IsoAssembler,
    source: u8,
    out: &mut StepEmits,
)
    ensures fast { fast.new ≡ remaining (is_fast_from source) fast.old }
    ensures sessions { sessions.new ≡ remaining (is_from source) sessions.old }
    ensures emits { out.new ≡ and_told most_told out.old (lost_of source fast.old sessions.old) }
{
    fast::drop_source(fast, source, out);
    drop_sessions(sessions, source, out);
}

/// Drops the sessions of an address that changes hands: the one to all before the one to the gateway.
fn drop_sessions(sessions: &mut IsoAssembler, source: u8, out: &mut StepEmits)
    ensures sessions { sessions.new ≡ remaining (is_from source) sessions.old }
    ensures emits { out.new ≡ and_told most_told out.old (sessions_lost (is_from source) sessions.old) }
{
    while let Some(ended) = sessions.drop_source(source) {
        out.tell(of_source(CLAIM_LOST, ended.source, ended.pgn));
    }
}

/// Drops the sessions to the gateway, whose own address changes, in the order of their senders.
pub fn drop_addressed(sessions: &mut IsoAssembler, out: &mut StepEmits)
    ensures sessions { sessions.new ≡ remaining is_addressed sessions.old }
    ensures emits { out.new ≡ and_told most_told out.old (sessions_lost is_addressed sessions.old) }
{
    while let Some(ended) = sessions.drop_addressed() {
        out.tell(of_source(CLAIM_LOST, ended.source, ended.pgn));
    }
}
