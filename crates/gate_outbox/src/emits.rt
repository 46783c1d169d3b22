//! What is to be sent and reported.
ghost use Rattle.std.specs.Prelude.{◌≡◌, ◌==◌, ◌<◌, ◌↔◌, ◌&&◌, ◌∷◌, [], filter, length, option_map, slice_get, IfSome, IsSome};
ghost use Rattle.std.specs.Borrow.{sem};
ghost use Rattle.n2k_id.specs.Frame.{IsFrame, bus_frame};
ghost use Rattle.gate_events.specs.Emit.{CanWrite, can, report};
ghost use Rattle.gate_outbox.specs.Kept.{lent_emits};
ghost use Rattle.gate_outbox.specs.Output.{IsEmitted, and_told, emit_of, emits_of, is_datagram, no_emits};
ghost use Rattle.history.specs.Emits.{is_there};

use crate::datagram::Datagram;
use crate::kept::Kept;
use crate::kept_list::KeptList;
use gate_events::{Emit, Report};
use n2k_id::Frame;
use sentence_text::Group;
use std::marker::Model;
use tag_block::Packet;

/// The most datagrams of an event, for which [`Emits`] has room. A frame completes at most one message, whose reading the gateway says in one
/// datagram with all its sentences; no other event says anything on the network.
pub const MOST_DATAGRAMS: usize = 1;

/// Frames and reports in their order, as many as there is `ROOM` for, and behind them at most [`MOST_DATAGRAMS`] datagram.
#[derive(Drop)]
pub struct Emits<const ROOM: usize> {
    kept: KeptList<ROOM>,
    posted: bool,
    datagram: Datagram,
}

impl<const ROOM: usize> Model for Emits<ROOM> {
    ghost use Rattle.gate_outbox.specs.Output.{Emitted};
    ghost use Rattle.gate_outbox.specs.Kept.{posted_emits};

    ghost Value = { Emitted };

    ghost view = { λ e. record { told = e.kept; posted = posted_emits e.posted e.datagram } };
}

impl<const ROOM: usize> Emits<ROOM> {
    ghost use Rattle.gate_outbox.specs.Lending.{lends_datagram};

    /// No emits.
    pub fn new() -> Self
        ensures { result ≡ no_emits }
    {
        Emits {
            kept: KeptList::new(),
            posted: false,
            datagram: Datagram {
                group: Group::default(),
                packet: Packet::new(),
            },
        }
    }

    /// Forgets all emits.
    pub fn clear(&mut self)
        ensures { self.new ≡ no_emits }
    {
        self.kept.clear();
        self.posted = false;
    }

    /// How many emits there are.
    #[tactic(auto, using(crate::proofs::Datagrams::are_emitted))]
    pub fn len(&self) -> usize
        ensures len { result ≡ length (emits_of self.now) }
        ensures emitted { IsEmitted ROOM self.now }
    {
        self.kept.len() + usize::from(self.posted)
    }

    /// The emit at this place, from 0; None exactly beyond the list.
    pub fn item(&self, place: usize) -> Option<Emit<'_>>
        ensures emit { option_map emit_of result ≡ slice_get (emits_of self.now) place }
        ensures beyond { IsSome result ↔ (place < length (emits_of self.now)) }
        ensures valid { IfSome result CanWrite }
    {
        if self.posts_at(place) {
            Some(Emit::Net(self.datagram.group, self.datagram.packet.as_slice()))
        } else {
            self.kept.get(place)
        }
    }

    /// Whether the datagram stands at this place.
    fn posts_at(&self, place: usize) -> bool
        ensures { result ≡ (is_there self.now.posted && (place == length self.now.told)) }
    {
        self.posted && place == self.kept.len()
    }

    /// The datagram, where it is there: all else is none.
    pub fn datagram(&self) -> Option<&Datagram>
        ensures posted { lent_emits result ≡ self.now.posted }
        ensures told { filter is_datagram self.now.told ≡ [] }
    {
        let _none = self.kept.len();
        if self.posted {
            Some(&self.datagram)
        } else {
            None
        }
    }

    /// Appends a report, where there is room.
    pub fn tell(&mut self, told: Report)
        ensures { self.new ≡ and_told ROOM self.old (report told ∷ []) }
    {
        self.kept.push(Kept::of_report(told));
    }

    /// Appends a frame, where there is room.
    pub fn send(&mut self, frame: Frame)
        requires valid { IsFrame frame }
        ensures { self.new ≡ and_told ROOM self.old (can (bus_frame frame) ∷ []) }
    {
        self.kept.push(Kept::of_frame(frame));
    }

    /// The datagram for a transmission group, whose bytes are to be written in place. The one that was there is forgotten.
    pub fn post(&mut self, group: Group) -> &mut Datagram
        ensures* after { sem 𝓛 (lends_datagram ROOM.row self.entry result) }
        ensures empty { result.now ≡ record { group = group; packet = record { items = [] } } }
    {
        self.posted = true;
        self.datagram.group = group;
        self.datagram.packet.clear();
        &mut self.datagram
    }
}
