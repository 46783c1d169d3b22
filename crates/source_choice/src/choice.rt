ghost use Rattle.std.specs.Prelude.{◌≡◌, ◌<◌, ◌≤◌, ◌↔◌, length, map, IfOk, IsTrue};
ghost use Rattle.source_choice.specs.Choices.{IsFirst, forgotten_in, is_chosen, nothing, subject_at, opened, with_noted, with_told, forgotten};
ghost use Rattle.source_choice.specs.Notes.{is_selected};

use crate::note::Note;
use crate::rank::Rank;
use crate::subject_notes::SubjectNotes;
use crate::told::Told;
use std::alloc::{AllocError, Global};
use std::marker::Model;

/// What each source said last of each subject, and so whose message is selected.
#[derive(Drop)]
pub struct Choice {
    sources: u16,
    subjects: Vec<SubjectNotes>,
}

impl Model for Choice {
    ghost use Rattle.std.specs.Prelude.{◌≡◌};
    ghost use Rattle.std.specs.List.{AllByRecursion};
    ghost use Rattle.source_choice.specs.Choices.{Choices};

    ghost Value = { Choices };

    ghost view = { λ c. record { sources = c.sources; subjects = c.subjects.items } };

    ghost invariant = { λ c. AllByRecursion (λ s. s.sources ≡ c.sources) c.subjects.items };
}

impl Choice {
    /// A choice that knows of nothing: there are so many sources, from 0 on, and as many subjects as timeouts, in whose order a subject's
    /// value counts so many milliseconds.
    #[tactic(auto, using(crate::proofs::ChoiceLemmas::all_opened))]
    pub fn new(alloc: Global, sources: u16, timeouts: &[u32]) -> Result<Choice, AllocError>
        requires { sources ≤ 254 }
        ensures { IfOk result (λ c. c ≡ opened sources timeouts.now) }
    {
        let subjects = subjects_of(alloc, sources, timeouts)?;
        Ok(Choice { sources, subjects })
    }

    /// Whether a message of the subject is selected that this source sends with this rank at this moment: no other source of a smaller
    /// rank is fresh.
    pub fn selected(&self, subject: usize, source: u8, rank: Rank, moment: u64) -> bool
        requires subject { subject < length self.now.subjects }
        requires source { source < self.now.sources }
        ensures value { result ≡ is_selected (subject_at self.now subject) source rank moment }
        ensures first { IsTrue result ↔ IsFirst (subject_at self.now subject) source rank moment }
    {
        self.subjects[subject].selected(source, rank, moment)
    }

    /// Notes what the source said of the subject, in the place of what was noted before.
    #[tactic(auto, using(crate::proofs::ChoiceLemmas::sources_at, crate::proofs::ChoiceLemmas::all_noted))]
    pub fn note(&mut self, subject: usize, source: u8, rank: Rank, moment: u64, usable: bool)
        requires subject { subject < length self.old.subjects }
        requires source { source < self.old.sources }
        ensures { self.new ≡ with_noted self.old subject (record { source = source; rank = rank; moment = moment; usable = usable }) }
    {
        self.subjects[subject].note(Note {
            source,
            rank,
            moment,
            usable,
        });
    }

    /// Notes what a source of this rank tells at this moment, and says whether it is selected.
    pub fn take(&mut self, source: u8, rank: Rank, moment: u64, told: Told) -> bool
        requires subject { told.subject < length self.old.subjects }
        requires source { source < self.old.sources }
        ensures chosen { result ≡ is_chosen self.old source rank moment told }
        ensures after { self.new ≡ with_told self.old source rank moment told }
    {
        let chosen = self.selected(told.subject, source, rank, moment);
        self.note(told.subject, source, rank, moment, told.usable);
        chosen
    }

    /// Nothing is noted of the source any more, of any subject.
    #[tactic(auto, using(crate::proofs::ChoiceLemmas::all_forgotten))]
    pub fn forget(&mut self, source: u8)
        requires { source < self.old.sources }
        ensures { self.new ≡ forgotten self.old source }
    {
        forget_in(&mut self.subjects, source);
    }
}

/// The subjects, of which nothing is noted yet.
fn subjects_of(
    alloc: Global,
    sources: u16,
    timeouts: &[u32],
) -> Result<Vec<SubjectNotes>, AllocError>
    ensures { IfOk result (λ subjects. subjects.items ≡ map (nothing sources) timeouts.now) }
{
    let mut subjects = Vec::with_capacity(alloc, timeouts.len())?;
    for subject in 0..timeouts.len() {
        subjects.push(SubjectNotes::new(alloc, sources, timeouts[subject])?)?;
    }
    Ok(subjects)
}

#[tactic(auto, using(crate::proofs::ChoiceLemmas::forgotten_more))]
fn forget_in(subjects: &mut Vec<SubjectNotes>, source: u8)
    ensures { subjects.new.items ≡ map (forgotten_in source) subjects.old.items }
{
    for subject in 0..subjects.len() {
        subjects[subject].forget(source);
    }
}
