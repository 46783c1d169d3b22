//! Where the entries lie: the slots in the order of their keys, and the buffers that no slot uses.
ghost use Rattle.std.specs.Prelude.{◌≡◌, ◌+◌, ◌<◌, ◌≤◌, ◌^◌, [], ◌++◌, ℕ, List, length, vec_len, IfOk, IfErr, IfSome, IfNone, slice_index_or};
ghost use Rattle.std.specs.List.{remove};
ghost use Rattle.slot_views.specs.Slots.{has_expired, is_between, IsOrdered};
ghost use Rattle.slot_views.specs.Answers.{ended_of, kept_of};
ghost use Rattle.slot_views.specs.Places.{Below, IsPlace};
ghost use Rattle.slot_views.specs.Shelf.{entries_of, entry_of, seen, IsSound, HasFinished, IsAt, IsGap, NotBelow, IsFirst, NoneShows, quiet_after};

use crate::answers::{Ended, Kept};
use crate::buffers::{append, buffers, keep};
use crate::place::Place;
use crate::slot::{Slot, first_expired};
use std::alloc::{AllocError, Global};
use std::cmp::Ordering;

/// There are as many buffers as entries may be held. A slot that ends leaves its buffer, with its bytes, as the last spare one,
/// so that a finished message is lent where it was joined.
#[derive(Drop)]
pub struct Shelf<K, const CAP: usize, const PIECE: usize> {
    pub limit: u16,
    pub slots: Vec<Slot<K>>,
    pub spare: Vec<Vec<u8>>,
    /// No entry expires up to this moment.
    pub quiet_until: u64,
    /// Where a slot opened or grew last, if it still stands there.
    pub latest: usize,
}

impl<K: Copy + Ord, const CAP: usize, const PIECE: usize> Shelf<K, CAP, PIECE> {
    pub fn new(alloc: Global, limit: u16) -> Result<Self, AllocError>
        requires { CAP < 2 ^ 16 }
        ensures sound { IfOk result (IsSound K.cmp) }
        ensures empty { IfOk result (λ s. seen s ≡ record { limit = limit; entries = [] }) }
    {
        let slots = Vec::with_capacity(alloc, usize::from(limit))?;
        let spare = buffers(alloc, limit, CAP)?;
        Ok(Shelf {
            limit,
            slots,
            spare,
            quiet_until: u64::MAX,
            latest: 0,
        })
    }

    // Where the key is, or where it would go. Pieces of one message mostly follow one another, so the place of the last one comes first.
    pub fn place(&self, key: K) -> Result<usize, usize>
        requires { IsOrdered K.cmp (entries_of self.now.slots.items) }
        ensures found { IfOk result (IsAt K.cmp key self.now.slots.items) }
        ensures absent { IfErr result (IsGap K.cmp key self.now.slots.items) }
    {
        let latest = self.latest;
        if latest < self.slots.len() && key.cmp(&self.slots[latest].key).is_eq() {
            return Ok(latest);
        }
        self.search(key)
    }

    // The same, by a search among all slots.
    fn search(&self, key: K) -> Result<usize, usize>
        requires { IsOrdered K.cmp (entries_of self.now.slots.items) }
        ensures found { IfOk result (IsAt K.cmp key self.now.slots.items) }
        ensures absent { IfErr result (IsGap K.cmp key self.now.slots.items) }
    {
        let mut low = 0;
        let mut high = self.slots.len();
        while low < high {
            let middle = low + (high - low) / 2;
            match key.cmp(&self.slots[middle].key) {
                Ordering::Less => high = middle,
                Ordering::Equal => return Ok(middle),
                Ordering::Greater => low = middle + 1,
            }
        }
        Err(low)
    }

    // The place as one among the slots.
    #[tactic(auto, using(crate::proofs::Places::found_from, crate::proofs::Places::absent_from))]
    pub fn slot_place(&self, place: Place<K>) -> Result<usize, usize>
        requires { IsPlace K.cmp (seen self.now) place }
        ensures found { IfOk result (IsAt K.cmp place.key self.now.slots.items) }
        ensures absent { IfErr result (IsGap K.cmp place.key self.now.slots.items) }
    {
        place.at
    }

    // What is known of the slot.
    pub fn kept(&self, at: usize) -> Kept
        requires sound { IsSound K.cmp self.now }
        requires in_range { at < length self.now.slots.items }
        ensures { (d : _) → result ≡ kept_of (entry_of (slice_index_or self.now.slots.items at d)).1 }
    {
        let slot = &self.slots[at];
        Kept {
            next: slot.next,
            need: slot.need,
            length: slot.bytes.len() as u16,
            mark: slot.mark,
        }
    }

    // The bytes of the slot so far.
    pub fn bytes(&self, at: usize) -> &[u8]
        requires { at < length self.now.slots.items }
        ensures { (d : _) → result.now ≡ (slice_index_or self.now.slots.items at d).bytes.items }
    {
        &self.slots[at].bytes
    }

    // Takes out the slot; its bytes, with the rest joined, stay in the last spare buffer.
    pub fn retire(&mut self, at: usize, rest: &[u8])
        requires sound { IsSound K.cmp self.old }
        requires in_range { at < length self.old.slots.items }
        requires piece_fits { length rest.now ≤ PIECE }
        ensures sound { IsSound K.cmp self.new }
        ensures limit { self.new.limit ≡ self.old.limit }
        ensures slots { self.new.slots.items ≡ remove self.old.slots.items at }
        ensures some { 0 < vec_len self.new.spare }
        ensures finished { (d : _) → HasFinished self.new ((slice_index_or self.old.slots.items at d).bytes.items ++ rest.now) }
    {
        let Slot { mut bytes, .. } = self.slots.remove(at);
        append(&mut bytes, rest);
        keep(&mut self.spare, bytes);
    }

    // Takes the slot out.
    pub fn end(&mut self, at: usize) -> Ended<K>
        requires sound { IsSound K.cmp self.old }
        requires in_range { at < length self.old.slots.items }
        ensures sound { IsSound K.cmp self.new }
        ensures limit { self.new.limit ≡ self.old.limit }
        ensures slots { self.new.slots.items ≡ remove self.old.slots.items at }
        ensures ended { (d : _) → result ≡ ended_of (entry_of (slice_index_or self.old.slots.items at d)) }
    {
        let slot = &self.slots[at];
        let ended = Ended {
            key: slot.key,
            mark: slot.mark,
        };
        self.retire(at, &[]);
        ended
    }

    // The bytes that finished last.
    pub fn finished(&self) -> &[u8]
        requires { 0 < vec_len self.now.spare }
        ensures { (bytes : List ℕ) → HasFinished self.now bytes → result.now ≡ bytes }
    {
        &self.spare[self.spare.len() - 1]
    }

    // The first entry that has expired at the moment. Where there is none, it is known up to when none will.
    pub fn expired(&mut self, moment: u64) -> Option<usize>
        requires { IsSound K.cmp self.old }
        ensures sound { IsSound K.cmp self.new }
        ensures same { seen self.new ≡ seen self.old }
        ensures slots { self.new.slots.items ≡ self.old.slots.items }
        ensures found { IfSome result (IsFirst (has_expired moment) self.old.slots.items) }
        ensures absent { IfNone result (NoneShows (has_expired moment) self.old.slots.items) }
        ensures quiet { IfNone result (self.new.quiet_until ≡ quiet_after moment self.old) }
    {
        if moment <= self.quiet_until {
            return None;
        }
        match first_expired(&self.slots, moment) {
            Ok(at) => Some(at),
            Err(quiet_until) => {
                self.quiet_until = quiet_until;
                None
            }
        }
    }

    // The first entry whose key lies from low to high.
    pub fn between(&self, low: K, high: K) -> Option<usize>
        requires { IsOrdered K.cmp (entries_of self.now.slots.items) }
        ensures found { IfSome result (IsFirst (is_between K.cmp low high) self.now.slots.items) }
        ensures absent { IfNone result (NoneShows (is_between K.cmp low high) self.now.slots.items) }
    {
        let at = self.lowest_from(low);
        if at == self.slots.len() {
            return None;
        }
        match self.slots[at].key.cmp(&high) {
            Ordering::Greater => None,
            Ordering::Less | Ordering::Equal => Some(at),
        }
    }

    // The place of the least key that isn't below this one.
    fn lowest_from(&self, low: K) -> usize
        requires { IsOrdered K.cmp (entries_of self.now.slots.items) }
        ensures in_range { result ≤ length self.now.slots.items }
        ensures below { Below K.cmp low (entries_of self.now.slots.items) result }
        ensures not_below { NotBelow K.cmp low self.now.slots.items result }
    {
        match self.place(low) {
            Ok(at) => at,
            Err(at) => at,
        }
    }
}
