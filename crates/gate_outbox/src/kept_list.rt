//! Frames and reports in their order, each in a place that was there from the first.
ghost use Rattle.std.specs.Prelude.{◌≡◌, ◌≤◌, [], ◌∷◌, filter, length, option_map, slice_get, IfSome};
ghost use Rattle.gate_events.specs.Emit.{CanWrite};
ghost use Rattle.gate_outbox.specs.Output.{emit_of, is_datagram, told_with};

use crate::kept::{BLANK, Kept};
use gate_events::Emit;
use std::marker::Model;

/// A place for each, in a struct of its own: Rattle has no proof of a call of the list that leaves an array of the list's own untouched.
#[derive(Drop)]
struct Places<const ROOM: usize> {
    cells: [Kept; ROOM],
}

/// At most `ROOM` frames and reports, seen as a list of emits.
///
/// Only the first `count` cells say something: what is cleared is forgotten, and nothing is written over it.
#[derive(Drop)]
pub(crate) struct KeptList<const ROOM: usize> {
    places: Places<ROOM>,
    count: usize,
}

impl<const ROOM: usize> Model for KeptList<ROOM> {
    ghost use Rattle.std.specs.Prelude.{◌≡◌, ◌≤◌, List, length, take};
    ghost use Rattle.std.specs.List.{AllByRecursion};
    ghost use Rattle.gate_events.specs.Emit.{Emit};
    ghost use Rattle.gate_outbox.specs.Kept.{IsKept, first_emits};

    ghost Value = { List Emit };

    ghost view = { λ l. first_emits l.count l.places.cells };

    ghost invariant = { λ l. (length l.places.cells ≡ ROOM) × (l.count ≤ ROOM) × AllByRecursion IsKept (take l.count l.places.cells) };
}

impl<const ROOM: usize> KeptList<ROOM> {
    ghost use Rattle.gate_outbox.specs.Kept.{IsKept, kept_emit};

    pub(crate) fn new() -> Self
        ensures { result ≡ [] }
    {
        KeptList {
            places: Places {
                cells: [BLANK; ROOM],
            },
            count: 0,
        }
    }

    pub(crate) fn clear(&mut self)
        ensures { self.new ≡ [] }
    {
        self.count = 0;
    }

    #[tactic(auto, using(crate::proofs::Datagrams::no_datagrams))]
    pub(crate) fn len(&self) -> usize
        ensures len { result ≡ length self.now }
        ensures most { length self.now ≤ ROOM }
        ensures none { filter is_datagram self.now ≡ [] }
    {
        self.count
    }

    /// Appends it, where there is room.
    pub(crate) fn push(&mut self, kept: Kept)
        requires { IsKept kept }
        ensures { self.new ≡ told_with ROOM self.old (kept_emit kept ∷ []) }
    {
        if self.count < ROOM {
            self.places.cells[self.count] = kept;
            self.count += 1;
        }
    }

    pub(crate) fn get(&self, place: usize) -> Option<Emit<'_>>
        ensures emit { option_map emit_of result ≡ slice_get self.now place }
        ensures valid { IfSome result CanWrite }
    {
        if place < self.count {
            Some(self.places.cells[place].emit())
        } else {
            None
        }
    }
}
