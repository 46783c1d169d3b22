//! Whom the gateway hears from the network (IEC 61162-450).
ghost use Rattle.std.specs.Prelude.{◌≡◌, ◌<◌, length, IfSome};
ghost use Rattle.tag_block.specs.Reading.{said};
ghost use Rattle.history.specs.Heard.{is_own_line, is_elsewhere, place_of};
ghost use Rattle.row_traffic.specs.NetCalls.{heard_by};

use crate::network::heard::Came;
use sentence_profile::OptionalSentences;
use sentence_text::Sfi;
use tag_block::Tag;

/// Whom the gateway hears, as it is configured, while it takes a datagram.
#[derive(Clone, Copy)]
pub struct Hearing<'a> {
    /// Its own system function identifier.
    pub sfi: Sfi,
    /// Those that it hears, in order of preference.
    pub sources: &'a [Sfi],
    /// Which of the sentences are read that a configuration decides on.
    pub optional: OptionalSentences,
    /// When the datagram came.
    pub came: Came,
}

impl Hearing<'_> {
    /// The place of a source among those that are listed.
    pub(crate) fn place_of(&self, source: Sfi) -> Option<usize>
        ensures place { result ≡ place_of (heard_by self.now) source }
        ensures within { IfSome result (λ place. place < length self.now.sources.now) }
    {
        self.sources.iter().position(|listed| source == *listed)
    }

    /// Whether the line is the gateway's own.
    pub(crate) fn is_own(&self, tag: &Tag<'_>) -> bool
        ensures { result ≡ is_own_line (heard_by self.now) (said tag.now) }
    {
        tag.source == self.sfi
    }

    /// Whether the line is for another device; one without a destination is for all.
    pub(crate) fn is_elsewhere(&self, tag: &Tag<'_>) -> bool
        ensures { result ≡ is_elsewhere (heard_by self.now) (said tag.now).destination }
    {
        match tag.destination {
            Some(destination) => destination != self.sfi.as_bytes().as_slice(),
            None => false,
        }
    }
}
