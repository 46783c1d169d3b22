//! What a frame is to the session of its key.
ghost use Rattle.std.specs.Prelude.{◌≡◌, ◌≤◌, []};
ghost use Rattle.slot_views.specs.Answers.{as_entry};
ghost use Rattle.iso_transport.specs.IsoRuns as runs;
ghost use Rattle.iso_transport.specs.Sessions as sessions;
ghost use Rattle.iso_transport.specs.Verdicts as verdicts;

use crate::abort_reason::{CANNOT_SUPPORT_ANOTHER, RESOURCES_NEEDED};
use crate::answers::IsoRefusal;
use crate::connection::{Cm, read_cm};
use crate::reply::Reply;
use crate::session::{GREATEST_WINDOW, Session};
use slot_views::Kept;

/// What a frame is.
#[derive(Clone, Copy)]
pub enum Verdict {
    /// It is to another node, or gives nothing.
    Ignored,
    /// The last packet again.
    Again,
    /// It is refused, with this reply, and no session changes.
    Refused(IsoRefusal, Option<Reply>),
    /// It is refused, with this reply, and the session of its key ends.
    Ends(IsoRefusal, Option<Reply>),
    /// It opens this session in the place of the one of that message.
    Opens(Session, Option<u32>),
    /// The next packet of this session, with this number; its part of the message ends at this place.
    Next(Session, u8, usize),
}

impl Verdict {
    ghost use Rattle.iso_transport.specs.Answers.{reply_by, restarted_by};
    ghost use Rattle.iso_transport.specs.Replies.{NamesPgn};
    ghost use Rattle.iso_transport.specs.Verdicts.{TellsSmall};

    /// The message that is given up for another one of its sender.
    pub(crate) fn restarted(self) -> Option<u32>
        ensures { result ≡ restarted_by self }
    {
        match self {
            Verdict::Opens(_, old) => old,
            _ => None,
        }
    }

    /// What the sender is told.
    pub(crate) fn reply(self, addressed: bool) -> Option<Reply>
        requires { TellsSmall self }
        ensures reply { result ≡ reply_by addressed self }
        ensures names { NamesPgn result }
    {
        match self {
            Verdict::Ignored | Verdict::Again => None,
            Verdict::Refused(_, reply) | Verdict::Ends(_, reply) => reply,
            Verdict::Opens(session, _) => session.reply_after(addressed, 0),
            Verdict::Next(session, number, _) => session.reply_after(addressed, number),
        }
    }
}

/// What a connection management frame is, where the session of its key is of the message `held`. `crowded` says that as many are
/// open as the limit.
pub(crate) fn management_verdict(
    addressed: bool,
    crowded: bool,
    held: Option<u32>,
    bytes: &[u8],
) -> Verdict
    ensures { result ≡ verdicts.management_verdict addressed crowded held bytes.now }
{
    if bytes.len() < 8 {
        return Verdict::Refused(IsoRefusal::Size, None);
    }
    match read_cm(bytes) {
        Some(Cm::Rts { .. }) if !addressed => Verdict::Refused(IsoRefusal::Size, None),
        Some(Cm::Bam { .. }) if addressed => Verdict::Refused(IsoRefusal::Size, None),
        Some(
            Cm::Rts {
                size,
                packets,
                limit,
                pgn,
            },
        ) => {
            let window = limit.clamp(1, GREATEST_WINDOW);
            let session = Session { pgn, size, window };
            sized_verdict(addressed, crowded, held, session, packets)
        }
        Some(Cm::Bam { size, packets, pgn }) => {
            let window = 1;
            let session = Session { pgn, size, window };
            sized_verdict(addressed, crowded, held, session, packets)
        }
        Some(Cm::Abort { .. }) if addressed => abort_verdict(held),
        _ => Verdict::Ignored,
    }
}

// What an opener is.
fn sized_verdict(
    addressed: bool,
    crowded: bool,
    held: Option<u32>,
    session: Session,
    packets: u8,
) -> Verdict
    ensures { result ≡ verdicts.sized_verdict addressed crowded held session packets }
{
    if !is_size(session.size, packets) {
        let reply = abort_to(addressed, RESOURCES_NEEDED, session.pgn);
        return Verdict::Ends(IsoRefusal::Size, reply);
    }
    if crowded && held.is_none() {
        let reply = abort_to(addressed, CANNOT_SUPPORT_ANOTHER, session.pgn);
        return Verdict::Refused(IsoRefusal::Full(session.pgn), reply);
    }
    Verdict::Opens(session, held)
}

// Whether a message may have the size, and has so many packets.
fn is_size(size: u16, packets: u8) -> bool
    ensures { result ≡ runs.is_size size packets }
{
    9 <= size && size <= 1785 && u16::from(packets) == size.div_ceil(7)
}

// What an abort is.
fn abort_verdict(held: Option<u32>) -> Verdict
    ensures { result ≡ verdicts.abort_verdict held }
{
    match held {
        None => Verdict::Ignored,
        Some(pgn) => Verdict::Ends(IsoRefusal::Aborted(pgn), None),
    }
}

// What an addressed sender is told of a message that is given up.
fn abort_to(addressed: bool, reason: u8, pgn: u32) -> Option<Reply>
    ensures { result ≡ sessions.abort_to addressed reason pgn }
{
    if addressed {
        Some(Reply::Abort { reason, pgn })
    } else {
        None
    }
}

/// What a packet is to a session that is open, by what is kept of it and its bytes so far.
pub(crate) fn packet_verdict(addressed: bool, kept: Kept, held: &[u8], bytes: &[u8]) -> Verdict
    ensures { result ≡ verdicts.packet_verdict addressed (Some (as_entry kept held.now)) bytes.now }
{
    let session = Session::of_mark(kept.mark);
    let left = usize::from(session.size).saturating_sub(held.len());
    let end = 1 + left.min(7);
    if bytes.len() < end {
        let reply = abort_to(addressed, RESOURCES_NEEDED, session.pgn);
        return Verdict::Ends(IsoRefusal::Size, reply);
    }
    if is_again(kept, held, bytes) {
        return Verdict::Again;
    }
    if u16::from(bytes[0]) != kept.next {
        let reply = abort_to(addressed, RESOURCES_NEEDED, session.pgn);
        return Verdict::Ends(IsoRefusal::Order, reply);
    }
    Verdict::Next(session, bytes[0], end)
}

// Whether the packet is the last one again, where that isn't the last one of the message.
fn is_again(kept: Kept, held: &[u8], bytes: &[u8]) -> bool
    ensures { result ≡ verdicts.is_again (as_entry kept held.now) bytes.now }
{
    bytes.len() == 8
        && 2 <= kept.next
        && kept.next < kept.need
        && u16::from(bytes[0]) == kept.next - 1
        && bytes[1..] == held[held.len().saturating_sub(7)..]
}
