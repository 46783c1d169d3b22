//! How an entry grows.
ghost use Rattle.std.specs.Prelude.{◌≡◌, ◌≢◌, min, ◌+◌, ◌<◌, ◌≤◌, length, slice_index_or};
ghost use Rattle.slot_views.specs.Slots.{grown, grown_after};
ghost use Rattle.slot_views.specs.Places.{IsPlace};
ghost use Rattle.slot_views.specs.Shelf.{entry_of, seen, IsSound, Extends, GrowsAs};

use crate::place::Place;
use crate::shelf::Shelf;
use crate::slot::{join, still_quiet};

/// What became of an entry with one more piece; one that is complete had this mark.
#[derive(Clone, Copy)]
pub enum Growth {
    Absent,
    NotNext(u16),
    Held,
    Complete(u64),
}

impl<K: Copy + Ord, const CAP: usize, const PIECE: usize> Shelf<K, CAP, PIECE> {
    // Adds the piece with that number to the entry of the key that stands there.
    #[tactic(auto, using(crate::proofs::Lists::holds_read))]
    pub fn grow(
        &mut self,
        place: Place<K>,
        next: u16,
        piece: &[u8],
        moment: u64,
        gap: u32,
    ) -> Growth
        requires sound { IsSound K.cmp self.old }
        requires place { IsPlace K.cmp (seen self.old) place }
        requires piece_fits { length piece.now ≤ PIECE }
        ensures sound { IsSound K.cmp self.new }
        ensures after { seen self.new ≡ grown_after K.cmp (seen self.old) place.key next piece.now moment gap }
        ensures answer { GrowsAs K.cmp (seen self.old) place.key self.new next (λ e. grown e piece.now moment gap) result }
    {
        let Ok(at) = self.slot_place(place) else {
            return Growth::Absent;
        };
        let slot = &self.slots[at];
        let (kept, need, mark) = (slot.next, slot.need, slot.mark);
        if kept != next {
            self.retire(at, &[]);
            return Growth::NotNext(kept);
        }
        if kept + 1 == need {
            self.retire(at, piece);
            return Growth::Complete(mark);
        }
        self.extend(at, piece, moment, gap);
        Growth::Held
    }

    // Joins the piece to the slot, which waits for more after it.
    pub fn extend(&mut self, at: usize, piece: &[u8], moment: u64, gap: u32)
        requires sound { IsSound K.cmp self.old }
        requires in_range { at < length self.old.slots.items }
        requires piece_fits { length piece.now ≤ PIECE }
        requires more { (d : _) → (slice_index_or self.old.slots.items at d).next + 1 ≢ (slice_index_or self.old.slots.items at d).need }
        ensures sound { IsSound K.cmp self.new }
        ensures limit { self.new.limit ≡ self.old.limit }
        ensures quiet { self.new.quiet_until ≡ min self.old.quiet_until (moment + gap) }
        ensures entries { (d : _) → Extends self.old.slots.items self.new.slots.items at
            (grown (entry_of (slice_index_or self.old.slots.items at d)).1 piece.now moment gap) }
    {
        let slot = &mut self.slots[at];
        join(slot, piece, moment, gap);
        self.quiet_until = still_quiet(self.quiet_until, moment, gap);
        self.latest = at;
    }
}
