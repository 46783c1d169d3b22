//! The slots.
ghost use Rattle.std.specs.Prelude.{◌≡◌, ◌≤◌, ◌<◌, ◌*◌, ◌^◌, [], length, IfOk, OnSome, IsTrue, IfSome, IfNone, option_map};
ghost use Rattle.std.specs.Option.{option_copied};
ghost use Rattle.std.specs.Borrow.{sem};
ghost use Rattle.std.specs.List.{find};
ghost use Rattle.slot_views.specs.Slots.{SlotMap, IsMap, opened, grown, released, without, entry_at, is_held};
ghost use Rattle.slot_views.specs.Slots.{begun_after, grown_after, has_expired, is_between};

use crate::answers::{Begun, Ended, Grown, Kept, View};
use crate::growth::Growth;
use crate::opening::{Opening, Start};
use crate::place::Place;
use crate::shelf::Shelf;
use std::alloc::{AllocError, Global};
use std::marker::Model;

/// At most `limit` entries by key: messages of up to `CAP` bytes that come in pieces of up to `PIECE` bytes.
///
/// It is seen as its limit and the list of its entries in the order of their keys. Only `new` takes memory.
#[derive(Drop)]
pub struct Slots<K: Copy + Ord, const CAP: usize, const PIECE: usize> {
    shelf: Shelf<K, CAP, PIECE>,
}

impl<K: Copy + Ord, const CAP: usize, const PIECE: usize> Model for Slots<K, CAP, PIECE> {
    ghost use Rattle.slot_views.specs.Slots.{SlotMap, slot_map_code};

    ghost Value = { SlotMap K };

    ghost coded = { slot_map_code K.code };

    ghost use Rattle.slot_views.specs.Shelf.{seen, IsSound};

    ghost view = { λ s. seen s.shelf };

    ghost invariant = { λ s. IsSound K.cmp s.shelf };
}

impl<K: Copy + Ord, const CAP: usize, const PIECE: usize> Slots<K, CAP, PIECE> {
    ghost use Rattle.slot_views.specs.Answers.{BeginGives, GrowGives, ended_of, kept_of};
    ghost use Rattle.slot_views.specs.Places.{IsPlace};
    ghost use Rattle.slot_views.specs.Rows.{ends_as};

    /// An empty map, with the memory for `limit` entries.
    pub fn new(alloc: Global, limit: u16) -> Result<Self, AllocError>
        requires { CAP < 2 ^ 16 }
        ensures { IfOk result (λ s. s ≡ record { limit = limit; entries = [] }) }
    {
        let shelf = Shelf::new(alloc, limit)?;
        Ok(Slots { shelf })
    }

    /// Where the key stands now. What takes a key looks for it; what takes its place, and is else the same, doesn't.
    #[tactic(auto, using(crate::proofs::Places::stands))]
    pub fn find(&self, key: K) -> Place<K>
        ensures key { result.key ≡ key }
        ensures place { IsPlace K.cmp self.now result }
        ensures map { IsMap K.cmp self.now }
    {
        let at = self.shelf.place(key);
        Place { key, at }
    }

    /// Opens an entry at the key with its first piece, in the place of the one that is held there. `need` is the number of pieces,
    /// `moment` that of this piece, `gap` how long the next one may take, `mark` a number of the caller's own.
    ///
    /// `need` is at least 1, the piece at most `PIECE` bytes, and `need` pieces of `PIECE` bytes fit `CAP`; moments and gaps are in
    /// one unit.
    pub fn begin<'a>(
        &'a mut self,
        key: K,
        piece: &[u8],
        need: u16,
        moment: u64,
        gap: u32,
        mark: u64,
    ) -> Begun<'a>
        requires need { 1 ≤ need }
        requires piece_fits { length piece.now ≤ PIECE }
        requires message_fits { need * PIECE ≤ CAP }
        ensures map { IsMap K.cmp self.old }
        ensures* after { sem 𝓛 (ends_as K.row CAP.row PIECE.row K.Ord self.entry (begun_after K.cmp self.old key (opened piece.now need moment gap mark))) }
        ensures answer { BeginGives K.cmp self.old key (opened piece.now need moment gap mark) result }
    {
        let place = self.find(key);
        self.begin_at(place, piece, need, moment, gap, mark)
    }

    /// `begin`, where the key stands.
    pub fn begin_at<'a>(
        &'a mut self,
        place: Place<K>,
        piece: &[u8],
        need: u16,
        moment: u64,
        gap: u32,
        mark: u64,
    ) -> Begun<'a>
        requires place { IsPlace K.cmp self.old place }
        requires need { 1 ≤ need }
        requires piece_fits { length piece.now ≤ PIECE }
        requires message_fits { need * PIECE ≤ CAP }
        ensures map { IsMap K.cmp self.old }
        ensures* after { sem 𝓛 (ends_as K.row CAP.row PIECE.row K.Ord self.entry (begun_after K.cmp self.old place.key (opened piece.now need moment gap mark))) }
        ensures answer { BeginGives K.cmp self.old place.key (opened piece.now need moment gap mark) result }
    {
        let start = Start {
            need,
            moment,
            gap,
            mark,
        };
        match self.shelf.begin(place, piece, start) {
            Opening::Full => Begun::Full,
            Opening::Held { replaced } => Begun::Held { replaced },
            Opening::Complete { replaced } => Begun::Complete {
                replaced,
                view: View {
                    bytes: self.shelf.finished(),
                    mark,
                },
            },
        }
    }

    /// Adds the piece with the number `next` to the key's entry, which is given up where it waits for another number.
    pub fn grow<'a>(
        &'a mut self,
        key: K,
        next: u16,
        piece: &[u8],
        moment: u64,
        gap: u32,
    ) -> Grown<'a>
        requires { length piece.now ≤ PIECE }
        ensures map { IsMap K.cmp self.old }
        ensures* after { sem 𝓛 (ends_as K.row CAP.row PIECE.row K.Ord self.entry (grown_after K.cmp self.old key next piece.now moment gap)) }
        ensures answer { GrowGives K.cmp self.old key next (λ e. grown e piece.now moment gap) result }
    {
        let place = self.find(key);
        self.grow_at(place, next, piece, moment, gap)
    }

    /// `grow`, where the key stands.
    pub fn grow_at<'a>(
        &'a mut self,
        place: Place<K>,
        next: u16,
        piece: &[u8],
        moment: u64,
        gap: u32,
    ) -> Grown<'a>
        requires place { IsPlace K.cmp self.old place }
        requires piece_fits { length piece.now ≤ PIECE }
        ensures map { IsMap K.cmp self.old }
        ensures* after { sem 𝓛 (ends_as K.row CAP.row PIECE.row K.Ord self.entry (grown_after K.cmp self.old place.key next piece.now moment gap)) }
        ensures answer { GrowGives K.cmp self.old place.key next (λ e. grown e piece.now moment gap) result }
    {
        match self.shelf.grow(place, next, piece, moment, gap) {
            Growth::Absent => Grown::Absent,
            Growth::NotNext(kept) => Grown::NotNext(kept),
            Growth::Held => Grown::Held,
            Growth::Complete(mark) => Grown::Complete(View {
                bytes: self.shelf.finished(),
                mark,
            }),
        }
    }

    /// What is known of the key's entry, where the key is held.
    pub fn kept(&self, key: K) -> Option<Kept>
        ensures kept { result ≡ option_map kept_of (entry_at K.cmp self.now key) }
        ensures map { IsMap K.cmp self.now }
    {
        self.kept_at(self.find(key))
    }

    /// `kept`, where the key stands.
    pub fn kept_at(&self, place: Place<K>) -> Option<Kept>
        requires { IsPlace K.cmp self.now place }
        ensures { result ≡ option_map kept_of (entry_at K.cmp self.now place.key) }
    {
        match self.shelf.slot_place(place) {
            Ok(at) => Some(self.shelf.kept(at)),
            Err(_) => None,
        }
    }

    /// The bytes that were joined so far at the key, where it is held.
    pub fn held_bytes(&self, key: K) -> Option<&[u8]>
        ensures bytes { option_copied result ≡ option_map (λ e. e.bytes) (entry_at K.cmp self.now key) }
        ensures map { IsMap K.cmp self.now }
    {
        self.held_bytes_at(self.find(key))
    }

    /// `held_bytes`, where the key stands.
    pub fn held_bytes_at(&self, place: Place<K>) -> Option<&[u8]>
        requires { IsPlace K.cmp self.now place }
        ensures { option_copied result ≡ option_map (λ e. e.bytes) (entry_at K.cmp self.now place.key) }
    {
        match self.shelf.slot_place(place) {
            Ok(at) => Some(self.shelf.bytes(at)),
            Err(_) => None,
        }
    }

    /// Gives the key's entry up, and says whether there was one.
    pub fn give_up(&mut self, key: K) -> bool
        ensures map { IsMap K.cmp self.old }
        ensures after { self.new ≡ released K.cmp self.old key }
        ensures answer { result ≡ is_held K.cmp self.old key }
    {
        let place = self.find(key);
        self.give_up_at(place)
    }

    /// `give_up`, where the key stands.
    pub fn give_up_at(&mut self, place: Place<K>) -> bool
        requires { IsPlace K.cmp self.old place }
        ensures after { self.new ≡ released K.cmp self.old place.key }
        ensures answer { result ≡ is_held K.cmp self.old place.key }
    {
        self.shelf.vacate(place).replaced
    }

    /// Takes out the entry of the least key for which more time than its gap has passed at the moment.
    pub fn expire_one(&mut self, moment: u64) -> Option<Ended<K>>
        ensures map { IsMap K.cmp self.old }
        ensures after { self.new ≡ without self.old (has_expired moment) }
        ensures answer { result ≡ option_map ended_of (find (has_expired moment) self.old.entries) }
    {
        match self.shelf.expired(moment) {
            Some(at) => Some(self.shelf.end(at)),
            None => None,
        }
    }

    /// Takes out the entry of the least key from `low` to `high`, both included.
    pub fn drop_between(&mut self, low: K, high: K) -> Option<Ended<K>>
        ensures map { IsMap K.cmp self.old }
        ensures after { self.new ≡ without self.old (is_between K.cmp low high) }
        ensures answer { result ≡ option_map ended_of (find (is_between K.cmp low high) self.old.entries) }
    {
        match self.shelf.between(low, high) {
            Some(at) => Some(self.shelf.end(at)),
            None => None,
        }
    }

    /// How many keys are held.
    pub fn count(&self) -> u16
        ensures count { result ≡ length self.now.entries }
        ensures map { IsMap K.cmp self.now }
    {
        self.shelf.slots.len() as u16
    }

    /// How many keys may be held.
    pub fn limit(&self) -> u16
        ensures limit { result ≡ self.now.limit }
        ensures map { IsMap K.cmp self.now }
    {
        self.shelf.limit
    }
}
