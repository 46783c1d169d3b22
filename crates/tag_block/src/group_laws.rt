//! What is promised of groups of lines, whoever assembles them.
ghost use Rattle.slot_views.specs.RunLaws.{OneStep, OneSuffix};
ghost use Rattle.slot_views.specs.Runs.{open_of};
ghost use Rattle.std.specs.Prelude.{◌≡◌, ℕ, List, ◌∷◌};
ghost use Rattle.std.specs.List.{AllByRecursion};
ghost use Rattle.tag_block.specs.declared.group_key.GroupKey.{GroupKey};
ghost use Rattle.tag_block.specs.declared.group_answers.GroupFed.{GroupFed};
ghost use Rattle.tag_block.specs.Groups.{IsGroupPart};
ghost use Rattle.tag_block.specs.GroupRuns.{GroupLine, group_rules};
ghost use Rattle.slot_views.specs.Laws.{TellsApart, EndsTheFirst};
ghost use Rattle.tag_block.specs.GroupJoining.{FeedsItsKey, StepsWithRuns};
ghost use Rattle.tag_block.specs.GroupLaws.{AreFed, FollowsRuns, AnswersRuns, group_after, group_at};

use crate::group_key::GroupKey;

/// The lines of one sender and code have one open prefix at most, and one more line, or a later moment, does to it what the rules
/// of groups say of the lines accepted so far alone.
pub fn groups_are_runs()
    ensures step { OneStep group_rules }
    ensures suffix { OneSuffix group_rules }
{}

/// Whatever lines of one key come, its group is that of the open prefix among them: its fields are those of the lines accepted so
/// far.
pub fn group_is_open_prefix()
    ensures { (h : List GroupLine) → AllByRecursion (λ x. IsGroupPart x.part) h → group_after h ≡ group_at (open_of group_rules h) }
{}

/// A line changes the group of its key alone, the first group that passes a test is the one that is taken out, and keys that stand
/// at one place are one key.
pub fn lines_change_their_key_alone()
    ensures feed { FeedsItsKey ⟦<GroupKey as Ord>⟧.cmp }
    ensures ends { EndsTheFirst ⟦<GroupKey as Ord>⟧.cmp }
    ensures keys { TellsApart ⟦<GroupKey as Ord>⟧.cmp }
{}

/// One line does to the group of its key what it does to the lines of the key that are open, whatever the other keys hold: the
/// answer is what those lines and this one say, and it leaves what they leave.
pub fn lines_step_with_groups()
    ensures { StepsWithRuns ⟦<GroupKey as Ord>⟧.cmp }
{}

/// Whatever lines of all keys come, the groups are those of the open prefixes among the lines of each key, and each line is
/// answered as those say: a group completes exactly where the lines of its key end with a run, and the view has that run's
/// sentences one after the other.
pub fn keys_follow_groups()
    ensures follows { (limit : ℕ) (h : List (GroupKey × GroupLine)) → AreFed ⟦<GroupKey as Ord>⟧.cmp limit h → FollowsRuns ⟦<GroupKey as Ord>⟧.cmp limit h }
    ensures answers { (limit : ℕ) (h : List (GroupKey × GroupLine)) (k : GroupKey) (x : GroupLine) (fed : GroupFed)
        → AreFed ⟦<GroupKey as Ord>⟧.cmp limit ((k, x) ∷ h) → AnswersRuns ⟦<GroupKey as Ord>⟧.cmp limit k x h fed }
{}
