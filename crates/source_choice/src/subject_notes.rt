//! What the sources of one subject said last, in the order of the sources.
ghost use Rattle.std.specs.Prelude.{◌≡◌, ◌<◌, ◌≢◌, ◌≤◌, [], true, false, nat_le, slice_index_or, length, ◌↔◌, IsTrue, vec_len, vec_capacity, IfOk};
ghost use Rattle.std.specs.List.{list_any, position_or_len, insert};
ghost use Rattle.source_choice.specs.Choices.{IsFirst};
ghost use Rattle.source_choice.specs.Notes.{SubjectNotes as Kept, AreFrom, is_selected, outranks, with_note, without};

use crate::note::Note;
use crate::rank::Rank;
use std::alloc::{AllocError, Global};
use std::marker::Model;

/// The notes lie behind one another, so that going over them costs what was noted and not what could be.
#[derive(Drop)]
pub(crate) struct SubjectNotes {
    /// How many sources there may be.
    sources: u16,
    /// In milliseconds.
    timeout: u32,
    notes: Vec<Note>,
    /// Where the source stood that was selected last. It is looked at first, because it mostly keeps the others back, or speaks again itself.
    leader: usize,
}

impl Model for SubjectNotes {
    ghost use Rattle.std.specs.Prelude.{◌≤◌, vec_capacity};
    ghost use Rattle.source_choice.specs.Notes.{SubjectNotes as Kept, AreFrom};

    ghost Value = { Kept };

    ghost view = { λ r. record { sources = r.sources; timeout = r.timeout; notes = r.notes.items } };

    ghost invariant = { λ r. AreFrom 0 r.sources r.notes.items × (r.sources ≤ vec_capacity r.notes) };
}

impl SubjectNotes {
    pub fn new(alloc: Global, sources: u16, timeout: u32) -> Result<SubjectNotes, AllocError>
        ensures { IfOk result (λ r. r ≡ record { sources = sources; timeout = timeout; notes = [] }) }
    {
        let notes = Vec::with_capacity(alloc, usize::from(sources))?;
        Ok(SubjectNotes {
            sources,
            timeout,
            notes,
            leader: 0,
        })
    }

    /// Whether no other source of a smaller rank is fresh.
    #[tactic(auto, using(crate::proofs::NoteLemmas::selected_is))]
    pub fn selected(&self, source: u8, rank: Rank, moment: u64) -> bool
        ensures value { result ≡ is_selected self.now source rank moment }
        ensures first { IsTrue result ↔ IsFirst self.now source rank moment }
    {
        !any_outranks(&self.notes, self.leader, self.timeout, source, rank, moment)
    }

    /// Notes what a source said, in the place of what was noted of it.
    pub fn note(&mut self, note: Note)
        requires { note.source < self.old.sources }
        ensures { self.new ≡ record self.old { notes = with_note note self.old.notes } }
    {
        let leads = note.usable
            && !outranks_at(
                &self.notes,
                self.leader,
                self.timeout,
                note.source,
                note.rank,
                note.moment,
            );
        let place = renew(&mut self.notes, self.sources, self.leader, note);
        if leads {
            self.leader = place;
        }
    }

    /// Nothing is noted of the source any more.
    #[tactic(auto, using(crate::proofs::NoteLemmas::from_without))]
    pub fn forget(&mut self, source: u8)
        ensures { self.new ≡ record self.old { notes = without source self.old.notes } }
    {
        drop_source(&mut self.notes, source);
    }
}

/// Whether one of these keeps back another source of this rank. The likely one is asked first.
fn any_outranks(
    notes: &[Note],
    likely: usize,
    timeout: u32,
    source: u8,
    rank: Rank,
    moment: u64,
) -> bool
    ensures { result ≡ list_any (outranks timeout source rank moment) notes.now }
{
    outranks_at(notes, likely, timeout, source, rank, moment)
        || notes
            .iter()
            .any(|note| note.outranks(timeout, source, rank, moment))
}

/// Whether the note at this place keeps back another source of this rank.
fn outranks_at(
    notes: &[Note],
    place: usize,
    timeout: u32,
    source: u8,
    rank: Rank,
    moment: u64,
) -> bool
    ensures { IsTrue result → list_any (outranks timeout source rank moment) notes.now ≡ true }
{
    match notes.get(place) {
        Some(note) => note.outranks(timeout, source, rank, moment),
        None => false,
    }
}

/// The first place that no smaller source has. The likely one is looked at first.
fn place_of(notes: &[Note], sources: u16, likely: usize, source: u8) -> usize
    requires kept { AreFrom 0 sources notes.now }
    ensures place { result ≡ position_or_len (λ n. nat_le source n.source) notes.now }
    ensures within { result ≤ length notes.now }
{
    if is_at(notes, likely, source) {
        likely
    } else {
        search(notes, sources, source)
    }
}

/// The first place that no smaller source has: the part where it lies is halved until nothing is left of it.
fn search(notes: &[Note], sources: u16, source: u8) -> usize
    requires kept { AreFrom 0 sources notes.now }
    ensures place { result ≡ position_or_len (λ n. nat_le source n.source) notes.now }
    ensures within { result ≤ length notes.now }
{
    let mut low = 0;
    let mut high = notes.len();
    while low < high {
        let middle = low + (high - low) / 2;
        if notes[middle].source < source {
            low = middle + 1;
        } else {
            high = middle;
        }
    }
    low
}

/// Whether the note at this place is of the source.
fn is_at(notes: &[Note], place: usize, source: u8) -> bool
    ensures here { IsTrue result → (d : Note) → (place < length notes.now) × ((slice_index_or notes.now place d).source ≡ source) }
    ensures elsewhere { result ≡ false → (d : Note) → place < length notes.now → (slice_index_or notes.now place d).source ≢ source }
{
    match notes.get(place) {
        Some(note) => note.source == source,
        None => false,
    }
}

fn drop_source(notes: &mut Vec<Note>, source: u8)
    ensures items { notes.new.items ≡ without source notes.old.items }
    ensures capacity { vec_capacity notes.new ≡ vec_capacity notes.old }
{
    notes.retain(|note| note.source != source);
}

/// Puts a note in the place of what was noted of its source, and answers where that is. The likely place is looked at first.
fn renew(notes: &mut Vec<Note>, sources: u16, likely: usize, note: Note) -> usize
    requires below { note.source < sources }
    requires kept { AreFrom 0 sources notes.old.items }
    requires room { sources ≤ vec_capacity notes.old }
    ensures items { notes.new.items ≡ with_note note notes.old.items }
    ensures kept { AreFrom 0 sources notes.new.items }
    ensures room { sources ≤ vec_capacity notes.new }
{
    let place = place_of(notes, sources, likely, note.source);
    if is_at(notes, place, note.source) {
        notes[place] = note;
    } else {
        put(notes, place, note);
    }
    place
}

/// Puts a note in its place, where there is room.
fn put(notes: &mut Vec<Note>, place: usize, note: Note)
    requires room { vec_len notes.old < vec_capacity notes.old }
    requires in_range { place ≤ vec_len notes.old }
    ensures items { notes.new.items ≡ insert notes.old.items place note }
    ensures capacity { vec_capacity notes.old ≤ vec_capacity notes.new }
{
    let _fits = notes.insert(place, note);
}
