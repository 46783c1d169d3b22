//! Whose session it is.
ghost use Rattle.std.specs.Prelude.{◌≡◌};

use n2k_id::Parts;
use n2k_id::address::ALL;

/// A sender, and whether it sends to this node alone or to all. One sender may have a session of each kind.
///
/// Sessions to all come before those to this node, and each kind in the order of the senders.
#[derive(Clone, Copy, PartialEq, Eq, PartialOrd, Ord)]
pub struct IsoKey {
    pub addressed: bool,
    pub source: u8,
}

impl IsoKey {
    ghost use Rattle.iso_transport.specs.Audience.{key_of};

    /// The key of a frame with these parts, which is to all or to this node.
    pub(crate) fn of(parts: &Parts) -> IsoKey
        ensures { result ≡ key_of parts.now }
    {
        IsoKey {
            addressed: parts.destination != ALL,
            source: parts.source,
        }
    }
}
