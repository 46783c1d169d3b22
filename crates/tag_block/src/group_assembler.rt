//! The assembler of groups of lines.
ghost use Rattle.std.specs.Prelude.{◌≡◌, ◌≤◌, ◌-◌, [], IfOk, length, option_map};
ghost use Rattle.std.specs.List.{find};
ghost use Rattle.std.specs.Borrow.{sem};
ghost use Rattle.sentence_text.specs.Sentence.{longest_line};
ghost use Rattle.slot_views.specs.Slots.{SlotMap, IsMap, grown, entry_at, without, begun_after, grown_after, has_expired};
ghost use Rattle.tag_block.specs.Groups.{IsGroupPart, IsNext, VerdictFits, key_of, verdict, opening, fed_by, fed_after};
ghost use Rattle.tag_block.specs.GroupRuns.{group_gap};

use crate::group_answers::{GroupFed, GroupOutcome};
use crate::group_key::GroupKey;
use crate::group_part::GroupPart;
use crate::group_verdict::{GroupVerdict, verdict_of};
use sentence_text::Sfi;
use slot_views::{Begun, Grown, Slots};
use std::alloc::{AllocError, Global};
use std::marker::Model;

/// A group has at most 9 lines, each with a sentence of at most 120 bytes.
const ROOM: usize = 1080;

/// How long a sentence is at most.
const PIECE: usize = 120;

/// How long the next line may take, in microseconds.
const GAP: u32 = 750_000;

/// Groups of lines of several senders in the making (IEC 61162-450, the parameter `g` of the TAG block).
///
/// It is seen as its limit and the list of its open groups in the order of their keys: of each the sentences so far, how many
/// they are, the total, the moment of the last line, and how long the next one may take.
#[derive(Drop)]
pub struct GroupAssembler {
    slots: Slots<GroupKey, ROOM, PIECE>,
}

impl Model for GroupAssembler {
    ghost use Rattle.slot_views.specs.Slots.{SlotMap};
    ghost use Rattle.tag_block.specs.declared.group_key.GroupKey.{GroupKey};

    ghost Value = { SlotMap GroupKey };

    ghost view = { λ s. s.slots };
}

impl GroupAssembler {
    ghost use Rattle.tag_block.specs.GroupRows.{ends_as};
    ghost use Rattle.tag_block.specs.GroupAnswers.{OpensGives, FollowsGives, OutcomeBy, FeedGives, restarted_by, ended_of};

    /// No group, with the memory for `limit` of them.
    pub fn new(alloc: Global, limit: u16) -> Result<Self, AllocError>
        ensures { IfOk result (λ s. s ≡ record { limit = limit; entries = [] }) }
    {
        let slots = Slots::new(alloc, limit)?;
        Ok(GroupAssembler { slots })
    }

    /// Takes a line of a group: who sent it, its place in the group, and its sentence. The total is 2 to 9, the number 1 to the
    /// total, the sentence at most 120 bytes.
    ///
    /// `moment` is in microseconds. What is overdue at it has to be ended first (`expire_one`): this call looks at no gap.
    pub fn feed<'a>(
        &'a mut self,
        sfi: Sfi,
        part: GroupPart,
        sentence: &[u8],
        moment: u64,
    ) -> GroupFed<'a>
        requires place { IsGroupPart part }
        requires fits { length sentence.now ≤ longest_line }
        ensures map { IsMap ⟦<GroupKey as Ord>⟧.cmp self.old }
        ensures* after { sem 𝓛 (ends_as self.entry (fed_after ⟦<GroupKey as Ord>⟧.cmp self.old (key_of sfi part) part sentence.now moment)) }
        ensures answer { FeedGives ⟦<GroupKey as Ord>⟧.cmp self.old (key_of sfi part) part sentence.now moment result }
    {
        let verdict = self.verdict(sfi, part);
        let restarted = self.restarts(sfi, part, verdict);
        let outcome = self.take(sfi, part, sentence, moment, verdict);
        GroupFed { restarted, outcome }
    }

    // Does what the line of the key asks for.
    fn take<'a>(
        &'a mut self,
        sfi: Sfi,
        part: GroupPart,
        sentence: &[u8],
        moment: u64,
        verdict: GroupVerdict,
    ) -> GroupOutcome<'a>
        requires place { IsGroupPart part }
        requires fits { length sentence.now ≤ longest_line }
        requires awaited { VerdictFits (entry_at ⟦<GroupKey as Ord>⟧.cmp self.old (key_of sfi part)) part verdict }
        ensures* after { sem 𝓛 (ends_as self.entry (fed_by ⟦<GroupKey as Ord>⟧.cmp self.old (key_of sfi part) part sentence.now moment verdict)) }
        ensures answer { OutcomeBy ⟦<GroupKey as Ord>⟧.cmp self.old (key_of sfi part) part sentence.now moment verdict result }
    {
        match verdict {
            GroupVerdict::Opens => self.begin(sfi, part, sentence, moment),
            GroupVerdict::Follows => self.grow(sfi, part, sentence, moment),
            GroupVerdict::Breaks => {
                let _ = self.slots.give_up(key_of(sfi, part));
                GroupOutcome::Order
            }
        }
    }

    // Opens the group, in the place of the one that is open.
    fn begin<'a>(
        &'a mut self,
        sfi: Sfi,
        part: GroupPart,
        sentence: &[u8],
        moment: u64,
    ) -> GroupOutcome<'a>
        requires place { IsGroupPart part }
        requires fits { length sentence.now ≤ longest_line }
        ensures* after { sem 𝓛 (ends_as self.entry (begun_after ⟦<GroupKey as Ord>⟧.cmp self.old (key_of sfi part) (opening part sentence.now moment))) }
        ensures answer { OpensGives ⟦<GroupKey as Ord>⟧.cmp self.old (key_of sfi part) (opening part sentence.now moment) result }
    {
        let total = u16::from(part.total);
        match self
            .slots
            .begin(key_of(sfi, part), sentence, total, moment, GAP, 0)
        {
            Begun::Full => GroupOutcome::Full,
            Begun::Held { .. } => GroupOutcome::Held,
            Begun::Complete { view, .. } => GroupOutcome::Complete(view),
        }
    }

    // Adds the next line to the group.
    fn grow<'a>(
        &'a mut self,
        sfi: Sfi,
        part: GroupPart,
        sentence: &[u8],
        moment: u64,
    ) -> GroupOutcome<'a>
        requires place { IsGroupPart part }
        requires fits { length sentence.now ≤ longest_line }
        requires awaited { IsNext (entry_at ⟦<GroupKey as Ord>⟧.cmp self.old (key_of sfi part)) part }
        ensures* after { sem 𝓛 (ends_as self.entry
            (grown_after ⟦<GroupKey as Ord>⟧.cmp self.old (key_of sfi part) (part.number - 1) sentence.now moment group_gap)) }
        ensures answer { FollowsGives ⟦<GroupKey as Ord>⟧.cmp self.old (key_of sfi part) (λ e. grown e sentence.now moment group_gap) result }
    {
        let before = u16::from(part.number - 1);
        match self
            .slots
            .grow(key_of(sfi, part), before, sentence, moment, GAP)
        {
            Grown::Held => GroupOutcome::Held,
            Grown::Complete(view) => GroupOutcome::Complete(view),
            // can't be: the verdict says that the group waits for this line.
            Grown::Absent | Grown::NotNext(_) => GroupOutcome::Order,
        }
    }

    // What the line is to the open group of its key.
    #[tactic(auto, using(crate::proofs::GroupVerdicts::fits_from))]
    fn verdict(&self, sfi: Sfi, part: GroupPart) -> GroupVerdict
        ensures map { IsMap ⟦<GroupKey as Ord>⟧.cmp self.now }
        ensures value { result ≡ verdict (entry_at ⟦<GroupKey as Ord>⟧.cmp self.now (key_of sfi part)) part }
        ensures fits { VerdictFits (entry_at ⟦<GroupKey as Ord>⟧.cmp self.now (key_of sfi part)) part result }
    {
        verdict_of(self.slots.kept(key_of(sfi, part)), part)
    }

    // Whether the line gives up the open group of its key for another one.
    fn restarts(&self, sfi: Sfi, part: GroupPart, verdict: GroupVerdict) -> bool
        ensures { result ≡ restarted_by ⟦<GroupKey as Ord>⟧.cmp self.now (key_of sfi part) verdict }
    {
        match verdict {
            GroupVerdict::Opens => self.slots.kept(key_of(sfi, part)).is_some(),
            GroupVerdict::Follows | GroupVerdict::Breaks => false,
        }
    }

    /// Ends the group of the least key whose next line is overdue at the moment.
    pub fn expire_one(&mut self, moment: u64) -> Option<GroupKey>
        ensures map { IsMap ⟦<GroupKey as Ord>⟧.cmp self.old }
        ensures after { self.new ≡ without self.old (has_expired moment) }
        ensures answer { result ≡ option_map ended_of (find (has_expired moment) self.old.entries) }
    {
        Some(self.slots.expire_one(moment)?.key)
    }

    /// How many groups are open.
    pub fn count(&self) -> u16
        ensures count { result ≡ length self.now.entries }
        ensures map { IsMap ⟦<GroupKey as Ord>⟧.cmp self.now }
    {
        self.slots.count()
    }
}

// Which group the line belongs to.
fn key_of(sfi: Sfi, part: GroupPart) -> GroupKey
    ensures { result ≡ key_of sfi part }
{
    GroupKey {
        sfi,
        code: part.code,
    }
}
