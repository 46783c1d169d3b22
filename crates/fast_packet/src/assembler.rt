//! The assembler.
ghost use Rattle.std.specs.Prelude.{◌≡◌, ◌≤◌, ◌+◌, [], IfOk, length, option_map};
ghost use Rattle.std.specs.List.{find};
ghost use Rattle.std.specs.Borrow.{sem};
ghost use Rattle.n2k_id.specs.Frame.{IsFrame, held_bytes};
ghost use Rattle.slot_views.specs.Slots.{SlotMap, IsMap, entry_at, without, begun_after, grown_after, has_expired};
ghost use Rattle.slot_views.specs.Places.{IsPlace};
ghost use Rattle.slot_views.specs.Answers.{kept_of};
ghost use Rattle.fast_packet.specs.FastRuns.{gap, counter_of};
ghost use Rattle.fast_packet.specs.Assembly.{verdict, opening, part_to, extended, fed_by, fed_after, is_from};
ghost use Rattle.fast_packet.specs.Verdicts.{IsOpener, IsNext, VerdictFits};

use crate::answers::{FastFed, FastOutcome, FastRefusal};
use crate::frames::{is_no_later, is_opener, mark_of, need_of, part};
use crate::key::FastKey;
use crate::verdict::{Verdict, later_verdict};
use n2k_id::Frame;
use slot_views::{Begun, Grown, Kept, Place, Slots};
use std::alloc::{AllocError, Global};
use std::marker::Model;

/// The longest message has 223 bytes in 32 frames, each with room for 7.
const ROOM: usize = 224;

/// How many bytes of the message a frame carries at most.
const PIECE: usize = 7;

/// How long the next frame may take, in microseconds.
pub const GAP: u32 = 750_000;

/// Fast packet messages of several senders in the making (canboat's fast packet protocol).
#[derive(Drop)]
pub struct FastAssembler {
    slots: Slots<FastKey, ROOM, PIECE>,
}

impl Model for FastAssembler {
    ghost use Rattle.slot_views.specs.Slots.{SlotMap};
    ghost use Rattle.fast_packet.specs.declared.key.FastKey.{FastKey};

    ghost Value = { SlotMap FastKey };

    ghost view = { λ s. s.slots };

    ghost use Rattle.fast_packet.specs.Assembly.{AreAssemblies};

    ghost invariant = { λ s. AreAssemblies ⟦<FastKey as Ord>⟧.cmp s.slots };
}

impl FastAssembler {
    ghost use Rattle.fast_packet.specs.Rows.{ends_as};
    ghost use Rattle.fast_packet.specs.Answers.{FeedGives, OutcomeBy, OpensGives, NextGives, ended_of};

    /// No assembly, with the memory for `limit` of them.
    pub fn new(alloc: Global, limit: u16) -> Result<Self, AllocError>
        ensures { IfOk result (λ s. s ≡ record { limit = limit; entries = [] }) }
    {
        let slots = Slots::new(alloc, limit)?;
        Ok(FastAssembler { slots })
    }

    /// Takes a frame of the PGN from the source. `moment` is in microseconds. What is overdue at it has to be ended first
    /// (`expire_one`): this call looks at no gap.
    pub fn feed<'a>(&'a mut self, source: u8, pgn: u32, frame: &Frame, moment: u64) -> FastFed<'a>
        requires { IsFrame frame.now }
        ensures map { IsMap ⟦<FastKey as Ord>⟧.cmp self.old }
        ensures* after { sem 𝓛 (ends_as self.entry
            (fed_after ⟦<FastKey as Ord>⟧.cmp self.old (record { source = source; pgn = pgn }) (held_bytes frame.now) moment)) }
        ensures answer { FeedGives ⟦<FastKey as Ord>⟧.cmp self.old (record { source = source; pgn = pgn }) (held_bytes frame.now) moment result }
    {
        let place = self.slots.find(FastKey { source, pgn });
        let bytes = frame.held();
        let kept = self.slots.kept_at(place);
        let verdict = self.verdict(place, kept, bytes);
        let restarted = verdict.restarts(kept.is_some());
        let outcome = self.take(place, bytes, moment, verdict);
        FastFed { restarted, outcome }
    }

    // Does what the frame of the key asks for.
    #[tactic(auto, using(crate::proofs::Keys::released_assemblies))]
    fn take<'a>(
        &'a mut self,
        place: Place<FastKey>,
        bytes: &[u8],
        moment: u64,
        verdict: Verdict,
    ) -> FastOutcome<'a>
        requires place { IsPlace ⟦<FastKey as Ord>⟧.cmp self.old place }
        requires fits { VerdictFits (entry_at ⟦<FastKey as Ord>⟧.cmp self.old place.key) bytes.now verdict }
        ensures* after { sem 𝓛 (ends_as self.entry (fed_by ⟦<FastKey as Ord>⟧.cmp self.old place.key bytes.now moment verdict)) }
        ensures answer { OutcomeBy ⟦<FastKey as Ord>⟧.cmp self.old place.key bytes.now moment verdict result }
    {
        match verdict {
            Verdict::Short => {
                let _ = self.slots.give_up_at(place);
                FastOutcome::Refused(FastRefusal::Length)
            }
            Verdict::OutOfOrder => {
                let _ = self.slots.give_up_at(place);
                FastOutcome::Refused(FastRefusal::Order)
            }
            Verdict::Orphan => FastOutcome::Refused(FastRefusal::Orphan),
            Verdict::Again => FastOutcome::Repeat,
            Verdict::Opens => self.begin(place, bytes, moment),
            Verdict::Next(end) => self.grow(place, bytes, end, moment),
        }
    }

    // Opens the assembly of a frame 0, in the place of the one that is open.
    fn begin<'a>(&'a mut self, place: Place<FastKey>, bytes: &[u8], moment: u64) -> FastOutcome<'a>
        requires place { IsPlace ⟦<FastKey as Ord>⟧.cmp self.old place }
        requires opener { IsOpener bytes.now }
        ensures* after { sem 𝓛 (ends_as self.entry (begun_after ⟦<FastKey as Ord>⟧.cmp self.old place.key (opening bytes.now moment))) }
        ensures answer { OpensGives ⟦<FastKey as Ord>⟧.cmp self.old place.key (opening bytes.now moment) result }
    {
        let length = bytes[1];
        let piece = &bytes[2..2 + usize::from(length.min(6))];
        let need = need_of(length);
        let mark = mark_of(bytes[0], length);
        match self.slots.begin_at(place, piece, need, moment, GAP, mark) {
            Begun::Full => FastOutcome::Refused(FastRefusal::Full),
            Begun::Held { .. } => FastOutcome::Held,
            Begun::Complete { view, .. } => FastOutcome::Complete(view),
        }
    }

    // Adds the part of the message that the next frame holds up to this place.
    fn grow<'a>(
        &'a mut self,
        place: Place<FastKey>,
        bytes: &[u8],
        end: usize,
        moment: u64,
    ) -> FastOutcome<'a>
        requires place { IsPlace ⟦<FastKey as Ord>⟧.cmp self.old place }
        requires next { IsNext (entry_at ⟦<FastKey as Ord>⟧.cmp self.old place.key) bytes.now end }
        ensures* after { sem 𝓛 (ends_as self.entry
            (grown_after ⟦<FastKey as Ord>⟧.cmp self.old place.key (counter_of bytes.now) (part_to end bytes.now) moment gap)) }
        ensures answer { NextGives ⟦<FastKey as Ord>⟧.cmp self.old place.key (λ e. extended end bytes.now moment e) result }
    {
        let counter = u16::from(bytes[0] % 32);
        match self
            .slots
            .grow_at(place, counter, part(bytes, end), moment, GAP)
        {
            Grown::Held => FastOutcome::Held,
            Grown::Complete(view) => FastOutcome::Complete(view),
            // can't be: the assembly is open.
            Grown::Absent => FastOutcome::Refused(FastRefusal::Orphan),
            // can't be: the assembly waits for this counter.
            Grown::NotNext(_) => FastOutcome::Refused(FastRefusal::Order),
        }
    }

    // What the frame is to the assembly of its key, of which this is kept.
    #[tactic(auto, using(crate::proofs::Verdicts::kept_verdict, crate::proofs::Verdicts::fits_from))]
    fn verdict(&self, place: Place<FastKey>, kept: Option<Kept>, bytes: &[u8]) -> Verdict
        requires place { IsPlace ⟦<FastKey as Ord>⟧.cmp self.now place }
        requires kept { kept ≡ option_map kept_of (entry_at ⟦<FastKey as Ord>⟧.cmp self.now place.key) }
        ensures value { result ≡ verdict (entry_at ⟦<FastKey as Ord>⟧.cmp self.now place.key) bytes.now }
        ensures fits { VerdictFits (entry_at ⟦<FastKey as Ord>⟧.cmp self.now place.key) bytes.now result }
    {
        if is_opener(bytes) {
            return Verdict::Opens;
        }
        if is_no_later(bytes) {
            return Verdict::Short;
        }
        match kept {
            None => Verdict::Orphan,
            Some(kept) => later_verdict(
                kept,
                self.slots.held_bytes_at(place).unwrap_or(&[]),
                bytes,
            ),
        }
    }

    /// Ends the assembly of the least key whose next frame is overdue at the moment.
    pub fn expire_one(&mut self, moment: u64) -> Option<FastKey>
        ensures map { IsMap ⟦<FastKey as Ord>⟧.cmp self.old }
        ensures after { self.new ≡ without self.old (has_expired moment) }
        ensures answer { result ≡ option_map ended_of (find (has_expired moment) self.old.entries) }
    {
        match self.slots.expire_one(moment) {
            Some(ended) => Some(ended.key),
            None => None,
        }
    }

    /// Ends the assembly of the source's least key.
    pub fn drop_source(&mut self, source: u8) -> Option<FastKey>
        ensures map { IsMap ⟦<FastKey as Ord>⟧.cmp self.old }
        ensures after { self.new ≡ without self.old (is_from source) }
        ensures answer { result ≡ option_map ended_of (find (is_from source) self.old.entries) }
    {
        let low = FastKey { source, pgn: 0 };
        let high = FastKey {
            source,
            pgn: u32::MAX,
        };
        match self.slots.drop_between(low, high) {
            Some(ended) => Some(ended.key),
            None => None,
        }
    }

    /// How many assemblies are open.
    pub fn count(&self) -> u16
        ensures count { result ≡ length self.now.entries }
        ensures map { IsMap ⟦<FastKey as Ord>⟧.cmp self.now }
    {
        self.slots.count()
    }
}
