//! What the assembler answers.
ghost use Rattle.std.specs.Prelude.{◌≡◌};
ghost use Rattle.iso_transport.specs.Sessions.{session_at};

use crate::key::IsoKey;
use crate::reply::Reply;
use crate::session::Session;
use slot_views::{Ended, View};

/// Why a frame was refused.
#[derive(Clone, Copy)]
pub enum IsoRefusal {
    /// A connection management frame of fewer than 8 bytes, an RTS to all, a BAM to this node, an opener with a size or a packet
    /// count that no message has, or a packet that holds less than it owes. The last two end an open session.
    Size,
    /// A packet that isn't the next one. The session ended.
    Order,
    /// A packet whose session isn't open.
    Orphan,
    /// An opener of this message whose key has no session open, while as many are open as the limit. Nothing changed.
    Full(u32),
    /// The sender aborted the session of this message, which ended.
    Aborted(u32),
}

/// What became of a frame.
#[derive(Clone, Copy)]
pub enum IsoOutcome<'a> {
    /// It is to another node, or gives nothing. Nothing changed.
    Ignored,
    /// It opened a session, or was added to one, and more packets are to come.
    Held,
    /// It completed this message, whose session is closed.
    Complete { pgn: u32, view: View<'a> },
    /// It is the last packet again, as some adapters send it. Nothing changed.
    Repeat,
    /// It was refused.
    Refused(IsoRefusal),
}

/// The answer to a frame.
#[derive(Clone, Copy)]
pub struct IsoFed<'a> {
    /// An opener came while a session of this message was open, which is given up.
    pub restarted: Option<u32>,
    /// What the sender has to be told.
    pub reply: Option<Reply>,
    pub outcome: IsoOutcome<'a>,
}

/// A session that was taken out, and the message that it was for.
#[derive(Clone, Copy)]
pub struct IsoEnded {
    pub addressed: bool,
    pub source: u8,
    pub pgn: u32,
}

impl IsoEnded {
    // The session that an entry stood for.
    pub(crate) fn of(ended: Ended<IsoKey>) -> IsoEnded
        ensures { result ≡ record { addressed = ended.key.addressed; source = ended.key.source; pgn = (session_at ended.mark).pgn } }
    {
        IsoEnded {
            addressed: ended.key.addressed,
            source: ended.key.source,
            pgn: Session::of_mark(ended.mark).pgn,
        }
    }
}
