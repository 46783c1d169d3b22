//! How an entry opens.
ghost use Rattle.std.specs.Prelude.{◌≡◌, ◌+◌, ◌*◌, min, ◌<◌, ◌≤◌, length, vec_len, IsTrue};
ghost use Rattle.slot_views.specs.Slots.{opened, released, added, is_held, begun_after};
ghost use Rattle.slot_views.specs.Places.{IsPlace};
ghost use Rattle.slot_views.specs.Shelf.{seen, IsSound, HasFinished, IsGap, OpensAs};

use crate::buffers::{put, refill};
use crate::place::Place;
use crate::shelf::Shelf;
use crate::slot::{Slot, still_quiet};

/// What a new entry starts with, besides its key and its first piece.
#[derive(Clone, Copy)]
pub struct Start {
    pub need: u16,
    pub moment: u64,
    pub gap: u32,
    pub mark: u64,
}

/// What became of a new entry.
#[derive(Clone, Copy)]
pub enum Opening {
    Full,
    Held { replaced: bool },
    Complete { replaced: bool },
}

/// Where a key would go that isn't held any more, and whether it was.
#[derive(Clone, Copy)]
pub struct Vacant {
    pub at: usize,
    pub replaced: bool,
}

impl<K: Copy + Ord, const CAP: usize, const PIECE: usize> Shelf<K, CAP, PIECE> {
    // Opens an entry of the key that stands there, in the place of the one that is held.
    pub fn begin(&mut self, place: Place<K>, piece: &[u8], start: Start) -> Opening
        requires sound { IsSound K.cmp self.old }
        requires place { IsPlace K.cmp (seen self.old) place }
        requires need { 1 ≤ start.need }
        requires piece_fits { length piece.now ≤ PIECE }
        requires message_fits { start.need * PIECE ≤ CAP }
        ensures sound { IsSound K.cmp self.new }
        ensures after { seen self.new ≡ begun_after K.cmp (seen self.old) place.key (opened piece.now start.need start.moment start.gap start.mark) }
        ensures answer { OpensAs K.cmp (seen self.old) place.key self.new (opened piece.now start.need start.moment start.gap start.mark) result }
    {
        let Vacant { at, replaced } = self.vacate(place);
        if self.spare.is_empty() {
            return Opening::Full;
        }
        if start.need == 1 {
            self.finish(piece);
            return Opening::Complete { replaced };
        }
        self.open(at, place.key, piece, start);
        Opening::Held { replaced }
    }

    // Gives up the slot of the key that stands there, where it has one, and says where the key would go then.
    pub fn vacate(&mut self, place: Place<K>) -> Vacant
        requires sound { IsSound K.cmp self.old }
        requires place { IsPlace K.cmp (seen self.old) place }
        ensures sound { IsSound K.cmp self.new }
        ensures after { seen self.new ≡ released K.cmp (seen self.old) place.key }
        ensures replaced { result.replaced ≡ is_held K.cmp (seen self.old) place.key }
        ensures gap { IsGap K.cmp place.key self.new.slots.items result.at }
        ensures room { IsTrue result.replaced → 0 < vec_len self.new.spare }
    {
        match self.slot_place(place) {
            Ok(at) => {
                self.retire(at, &[]);
                Vacant { at, replaced: true }
            }
            Err(at) => Vacant {
                at,
                replaced: false,
            },
        }
    }

    // Leaves the piece in the last spare buffer.
    fn finish(&mut self, piece: &[u8])
        requires sound { IsSound K.cmp self.old }
        requires some { 0 < vec_len self.old.spare }
        requires fits { length piece.now ≤ CAP }
        ensures sound { IsSound K.cmp self.new }
        ensures same { seen self.new ≡ seen self.old }
        ensures finished { HasFinished self.new piece.now }
    {
        let last = self.spare.len() - 1;
        refill(&mut self.spare[last], piece);
    }

    // Opens a slot in its place, with its first piece.
    fn open(&mut self, at: usize, key: K, piece: &[u8], start: Start)
        requires sound { IsSound K.cmp self.old }
        requires gap { IsGap K.cmp key self.old.slots.items at }
        requires some { 0 < vec_len self.old.spare }
        requires more { 1 < start.need }
        requires piece_fits { length piece.now ≤ PIECE }
        requires message_fits { start.need * PIECE ≤ CAP }
        ensures sound { IsSound K.cmp self.new }
        ensures after { seen self.new ≡ added K.cmp (seen self.old) key (opened piece.now start.need start.moment start.gap start.mark) }
        ensures quiet { self.new.quiet_until ≡ min self.old.quiet_until (start.moment + start.gap) }
    {
        let mut bytes = self.spare.pop().unwrap();
        refill(&mut bytes, piece);
        let slot = Slot {
            key,
            bytes,
            next: 1,
            need: start.need,
            last: start.moment,
            gap: start.gap,
            mark: start.mark,
        };
        put(&mut self.slots, at, slot);
        self.quiet_until = still_quiet(self.quiet_until, start.moment, start.gap);
        self.latest = at;
    }
}
