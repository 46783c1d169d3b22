//! The receiver of fast packets: what the gateway hears by it, and whoever else reads messages of the bus.
ghost use Rattle.std.specs.Prelude.{◌≡◌};
ghost use Rattle.std.specs.Borrow.{sem};
ghost use Rattle.n2k_id.specs.Frame.{IsFrame, held_bytes};
ghost use Rattle.slot_views.specs.Slots.{remaining};
ghost use Rattle.slot_views.specs.Traces.{unexpired};
ghost use Rattle.fast_packet.specs.Assembly.{fed_after, is_from};
ghost use Rattle.fast_packet.specs.Rows.{ends_as};
ghost use Rattle.history.specs.Emits.{reported};
ghost use Rattle.history.specs.RuleLaws.{fast_rule, fast_refusal_breaks};
ghost use Rattle.gate_model.specs.Endings.{fast_lost, fast_overdue};
ghost use Rattle.gate_model.specs.FastPackets.{answer_of, fast_answer, key_of, payload_in, refusal_in, restarted_reports, sender_of};
ghost use Rattle.gate_outbox.specs.Output.{and_told};
ghost use Rattle.bus_messages.specs.Heard.{heard_reports, lent_payload};

use fast_packet::{FastAssembler, FastFed, FastKey, FastOutcome, FastRefusal};
use gate_outbox::Emits;
use gate_outbox::reports::of_source;
use n2k_id::{Frame, Parts};
use report_rules::{
    CLAIM_LOST, EXPIRED, FAST_LENGTH, FAST_ORDER, FAST_ORPHAN, RESTARTED, SLOTS_FULL,
};

/// Takes a frame of a fast packet, reports what it breaks, and lends the payload that it completes.
#[tactic(auto, using(gate_model::proofs::FastAnswers::fast_answers_are_plain))]
pub fn hear<'a, const ROOM: usize>(
    fast: &'a mut FastAssembler,
    parts: &Parts,
    frame: &Frame,
    moment: u64,
    out: &mut Emits<ROOM>,
) -> Option<&'a [u8]>
    requires { IsFrame frame.now }
    ensures* after { sem 𝓛 (ends_as fast.entry
        (fed_after ⟦<FastKey as Ord>⟧.cmp fast.old (key_of parts.now) (held_bytes frame.now) moment)) }
    ensures emits { out.new ≡ and_told ROOM out.old (reported (heard_reports parts.now
        (fast_answer ⟦<FastKey as Ord>⟧.cmp fast.old (key_of parts.now) (held_bytes frame.now) moment))) }
    ensures payload { lent_payload result
        ≡ (fast_answer ⟦<FastKey as Ord>⟧.cmp fast.old (key_of parts.now) (held_bytes frame.now) moment).payload }
{
    let fed = fast.feed(parts.source, parts.pgn, frame, moment);
    tell_broken(parts, &fed, out);
    lent(fed.outcome)
}

/// The payload of the message that a frame completes.
fn lent<'a>(outcome: FastOutcome<'a>) -> Option<&'a [u8]>
    ensures { lent_payload result ≡ payload_in outcome.entry }
{
    match outcome {
        FastOutcome::Complete(view) => Some(view.bytes),
        FastOutcome::Held | FastOutcome::Repeat | FastOutcome::Refused(_) => None,
    }
}

/// Reports that a message begins again, and why the frame is refused.
#[tactic(auto, using(gate_outbox::proofs::Telling::reported_more))]
fn tell_broken<const ROOM: usize>(parts: &Parts, fed: &FastFed<'_>, out: &mut Emits<ROOM>)
    ensures { out.new ≡ and_told ROOM out.old (reported (heard_reports parts.now (answer_of fed.now))) }
{
    tell_restarted(parts, fed.restarted, out);
    tell_refused(parts, &fed.outcome, out);
}

fn tell_restarted<const ROOM: usize>(parts: &Parts, restarted: bool, out: &mut Emits<ROOM>)
    ensures { out.new ≡ and_told ROOM out.old (reported (restarted_reports parts.now restarted)) }
{
    if restarted {
        out.tell(of_source(RESTARTED, parts.source, parts.pgn));
    }
}

fn tell_refused<const ROOM: usize>(parts: &Parts, outcome: &FastOutcome<'_>, out: &mut Emits<ROOM>)
    ensures { out.new ≡ and_told ROOM out.old (reported (fast_refusal_breaks (sender_of parts.now) (refusal_in outcome.now))) }
{
    match outcome {
        FastOutcome::Refused(refusal) => {
            out.tell(of_source(rule_of(*refusal), parts.source, parts.pgn));
        }
        _ => {}
    }
}

/// The rule by which a frame is refused.
fn rule_of(refusal: FastRefusal) -> u8
    ensures { result ≡ fast_rule refusal }
{
    match refusal {
        FastRefusal::Order => FAST_ORDER,
        FastRefusal::Orphan => FAST_ORPHAN,
        FastRefusal::Length => FAST_LENGTH,
        FastRefusal::Full => SLOTS_FULL,
    }
}

/// Ends the fast packets that are overdue at the moment, in the order of their keys.
pub fn end_overdue<const ROOM: usize>(fast: &mut FastAssembler, moment: u64, out: &mut Emits<ROOM>)
    ensures fast { fast.new ≡ unexpired moment fast.old }
    ensures emits { out.new ≡ and_told ROOM out.old (fast_overdue fast.old moment) }
{
    while let Some(key) = fast.expire_one(moment) {
        out.tell(of_source(EXPIRED, key.source, key.pgn));
    }
}

/// Drops the fast packets of an address that changes hands, in the order of their keys.
pub fn drop_source<const ROOM: usize>(fast: &mut FastAssembler, source: u8, out: &mut Emits<ROOM>)
    ensures fast { fast.new ≡ remaining (is_from source) fast.old }
    ensures emits { out.new ≡ and_told ROOM out.old (fast_lost (is_from source) fast.old) }
{
    while let Some(key) = fast.drop_source(source) {
        out.tell(of_source(CLAIM_LOST, key.source, key.pgn));
    }
}
