//! What a frame is to the gateway, and what a frame breaks that is neither of a fast packet nor of the transport protocol.
ghost use Rattle.std.specs.Prelude.{◌≡◌, if◌then◌else◌, None};
ghost use Rattle.pgn_profile.specs.Profiled.{kind_of};
ghost use Rattle.history.specs.Emits.{reported};
ghost use Rattle.history.specs.Meanings.{address_claim, request, if_held, by_kind, meaning_of};
ghost use Rattle.history.specs.Traces.{is_transport};
ghost use Rattle.gate_model.specs.Addresses.{is_malformed, plain_reports, plain_done};
ghost use Rattle.bus_messages.specs.MeaningOf.{meant};
ghost use Rattle.gate_outbox.specs.Output.{and_told, most_told};

use claim_table::ClaimTable;
use gate_events::{Detail, Report};
use gate_outbox::StepEmits;
use gate_outbox::reports::of_source;
use n2k_id::address::{ALL, is_own, is_to};
use n2k_id::pgn::{ADDRESS_CLAIMED, CONNECTION_MANAGEMENT, DATA_TRANSFER, REQUEST};
use n2k_id::{Name, Parts, read_name};
use pgn_profile::{Kind, kind};
use report_rules::{CLAIM_OR_REQUEST_MALFORMED, DUPLICATE_NAME, OWN_ADDRESS_USED, UNCLAIMED};

/// What a frame is to the gateway: the first of these.
#[derive(Clone, Copy)]
pub enum Meaning {
    /// A claim of an address (ISO 11783-5).
    AddressClaim,
    /// Anything else from the gateway's own address.
    OwnSource,
    /// A request to all or to the gateway.
    Request,
    /// Of one of the three kinds that follow, from an address that nobody holds.
    FromNobody,
    /// Of the transport protocol (ISO 11783-3), to all or to the gateway.
    Transport,
    /// Of a message that comes in one frame.
    Single,
    /// Of a message that comes as a fast packet.
    FastPacket,
    /// Nothing to the gateway.
    Passed,
}

/// How many bytes a request has that says for what.
pub const REQUEST_BYTES: usize = 3;

/// What a frame with these parts is.
pub fn meaning_of(claims: &ClaimTable, parts: &Parts) -> Meaning
    ensures { meant result ≡ meaning_of kind_of claims.now.own claims.now.holders parts.now }
{
    let own = claims.own();
    let held = claims.holder(parts.source).is_some();
    if parts.pgn == ADDRESS_CLAIMED {
        Meaning::AddressClaim
    } else if is_own(own, parts.source) {
        Meaning::OwnSource
    } else if parts.pgn == REQUEST {
        if_to(is_to(own, parts.destination), Meaning::Request)
    } else if is_transport(parts) {
        if_to(
            is_to(own, parts.destination),
            if_held(held, Meaning::Transport),
        )
    } else {
        by_kind(kind(parts.pgn), held)
    }
}

fn is_transport(parts: &Parts) -> bool
    ensures { result ≡ is_transport parts.now }
{
    parts.pgn == CONNECTION_MANAGEMENT || parts.pgn == DATA_TRANSFER
}

/// What a frame is to the gateway where it is to it.
fn if_to(here: bool, meaning: Meaning) -> Meaning
    ensures { meant result ≡ (if here then meant meaning else meant Meaning.Passed) }
{
    if here { meaning } else { Meaning::Passed }
}

/// What a frame is where its source is held.
fn if_held(held: bool, meaning: Meaning) -> Meaning
    ensures { meant result ≡ if_held held (meant meaning) }
{
    if held { meaning } else { Meaning::FromNobody }
}

fn by_kind(kind: Kind, held: bool) -> Meaning
    ensures { meant result ≡ by_kind kind held }
{
    match kind {
        Kind::Single => if_held(held, Meaning::Single),
        Kind::Fast => if_held(held, Meaning::FastPacket),
        Kind::Outside => Meaning::Passed,
    }
}

/// Reports what a frame breaks that completes no message and is neither of a fast packet nor of the transport protocol.
pub fn tell_plain(name: Name, meaning: Meaning, parts: &Parts, bytes: &[u8], out: &mut StepEmits)
    requires { plain_done (meant meaning) parts.now bytes.now ≡ None }
    ensures { out.new ≡ and_told most_told out.old (reported (plain_reports name.0 (meant meaning) parts.now bytes.now)) }
{
    match meaning {
        Meaning::AddressClaim => tell_claim(name, parts, bytes, out),
        Meaning::OwnSource => out.tell(of_source(OWN_ADDRESS_USED, parts.source, parts.pgn)),
        Meaning::Request => tell_request(parts, bytes, out),
        Meaning::FromNobody => out.tell(of_source(UNCLAIMED, parts.source, parts.pgn)),
        Meaning::Single | Meaning::Transport | Meaning::FastPacket | Meaning::Passed => {}
    }
}

/// Reports a claim with the gateway's own NAME, and one that is none.
pub fn tell_claim(name: Name, parts: &Parts, bytes: &[u8], out: &mut StepEmits)
    ensures emits { out.new ≡ and_told most_told out.old (reported (plain_reports name.0 address_claim parts.now bytes.now)) }
{
    if is_malformed(parts, bytes) {
        out.tell(of_source(CLAIM_OR_REQUEST_MALFORMED, parts.source, parts.pgn));
    } else if read_name(bytes) == Some(name) {
        out.tell(Report {
            rule: DUPLICATE_NAME,
            detail: Detail::Address(parts.source),
        });
    }
}

/// Whether the bytes of a claim are no NAME, or its address can't be claimed.
fn is_malformed(parts: &Parts, bytes: &[u8]) -> bool
    ensures { result ≡ is_malformed parts.now bytes.now }
{
    bytes.len() < 8 || parts.source == ALL
}

/// Reports a request that doesn't say for what.
fn tell_request(parts: &Parts, bytes: &[u8], out: &mut StepEmits)
    ensures emits { out.new ≡ and_told most_told out.old (reported (plain_reports 0 request parts.now bytes.now)) }
{
    if bytes.len() < REQUEST_BYTES {
        out.tell(of_source(CLAIM_OR_REQUEST_MALFORMED, parts.source, parts.pgn));
    }
}
