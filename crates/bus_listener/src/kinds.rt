//! Which parameter groups are heard.
ghost use Rattle.std.specs.Prelude.{◌≡◌, ℕ};
ghost use Rattle.pgn_profile.specs.declared.kinds.Kind.{Kind as HowItComes};
ghost use Rattle.gate_core.specs.Steps.{IsEventValid, entry_of};
ghost use Rattle.bus_listener.specs.Kept.{may_complete};
ghost use Rattle.bus_listener.specs.Kinds.{AreHeard, is_message, is_told};

use gate_events::Event;
use n2k_id::parts;
use pgn_profile::{Kind, kind};

/// The parameter groups that a listener hears.
pub trait Kinds {
    /// How the messages of a PGN come; what is outside isn't heard.
    ghost kinds: { Self → ℕ → HowItComes };

    /// How the messages of the PGN come.
    fn kind(&self, pgn: u32) -> Kind
        ensures { result ≡ kinds self.now pgn };

    /// None is of claims, of requests or of the transport protocol, and the gateway assembles none of the fast packets.
    ghost heard: { (x : Self) → AreHeard (kinds x) };
}

/// Whether what messages of the PGN break is told beside the gateway, which tells that of its own.
pub fn is_told(pgn: u32) -> bool
    ensures { result ≡ is_told pgn }
{
    !is_message(kind(pgn))
}

/// Whether an event may complete a message that is heard: whether it is a frame of one.
#[inline(always)]
pub fn may_complete<K: Kinds>(event: &Event<'_>, kinds: &K) -> bool
    requires { IsEventValid event.now }
    ensures { result ≡ may_complete (K.kinds kinds.now) (entry_of event.now) }
{
    match event {
        Event::Frame { frame, .. } => is_message(kinds.kind(parts(frame.id).unwrap().pgn)),
        Event::Datagram { .. } | Event::Tick { .. } => false,
    }
}

/// Whether messages come so.
pub(crate) fn is_message(kind: Kind) -> bool
    ensures { result ≡ is_message kind }
{
    match kind {
        Kind::Single | Kind::Fast => true,
        Kind::Outside => false,
    }
}
