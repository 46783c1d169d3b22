//! What is promised of fast packets, whoever assembles them.
ghost use Rattle.slot_views.specs.RunLaws.{OneStep, OneSuffix};
ghost use Rattle.fast_packet.specs.FastRuns.{FastPiece, fast_rules, longest, frames_of};
ghost use Rattle.fast_packet.specs.declared.key.FastKey.{FastKey};
ghost use Rattle.std.specs.Prelude.{◌≡◌, ℕ, List, ◌∷◌, ◌≤◌, length};
ghost use Rattle.slot_views.specs.Laws.{TellsApart, EndsTheFirst};
ghost use Rattle.fast_packet.specs.Joining.{FeedsItsKey, StepsWithRuns};
ghost use Rattle.fast_packet.specs.Laws.{IsRunOf};
ghost use Rattle.fast_packet.specs.RunAssemblies.{assembly_after, assembly_at};
ghost use Rattle.fast_packet.specs.Keys.{AreFed, FollowsRuns, AnswersRuns};
ghost use Rattle.fast_packet.specs.declared.answers.FastFed.{FastFed};
ghost use Rattle.std.specs.List.{AllByRecursion};
ghost use Rattle.slot_views.specs.Runs.{open_of};

use crate::key::FastKey;

/// The frames of one sender and PGN have one open prefix at most, and one more frame, or a later moment, does to it what the
/// rules of fast packets say of the frames accepted so far alone.
pub fn fast_runs()
    ensures step { OneStep fast_rules }
    ensures suffix { OneSuffix fast_rules }
{}

/// The frames that `split` appends are a run of its payload, with its sequence, and of no other payload.
pub fn split_is_a_run()
    ensures { (sequence : ℕ) (p : List ℕ) → sequence ≤ 7 → 1 ≤ length p → length p ≤ longest → IsRunOf sequence p (frames_of sequence p) }
{}

/// Whatever frames of one key come, its assembly is that of the open prefix among them: its fields are those of the frames
/// accepted so far.
pub fn assembly_is_open_prefix()
    ensures { (h : List FastPiece) → AllByRecursion (λ x. length x.bytes ≤ 8) h → assembly_after h ≡ assembly_at (open_of fast_rules h) }
{}

/// A frame changes the assembly of its key alone, the first assembly that passes a test is the one that is taken out, and keys
/// that stand at one place are one key.
pub fn frames_change_their_key_alone()
    ensures feed { FeedsItsKey ⟦<FastKey as Ord>⟧.cmp }
    ensures ends { EndsTheFirst ⟦<FastKey as Ord>⟧.cmp }
    ensures keys { TellsApart ⟦<FastKey as Ord>⟧.cmp }
{}

/// One frame does to the assembly of its key what it does to the frames of the key that are open, whatever the other keys hold: the
/// answer is what those frames and this one say, and it leaves what they leave.
pub fn frames_step_with_runs()
    ensures { StepsWithRuns ⟦<FastKey as Ord>⟧.cmp }
{}

/// Whatever frames of all keys come, the assemblies are those of the open prefixes among the frames of each key, and each frame is
/// answered as those say: a message completes exactly where the frames of its key end with a run, and is that run's payload.
pub fn keys_follow_runs()
    ensures follows { (limit : ℕ) (h : List (FastKey × FastPiece)) → AreFed ⟦<FastKey as Ord>⟧.cmp limit h → FollowsRuns ⟦<FastKey as Ord>⟧.cmp limit h }
    ensures answers { (limit : ℕ) (h : List (FastKey × FastPiece)) (k : FastKey) (x : FastPiece) (fed : FastFed)
        → AreFed ⟦<FastKey as Ord>⟧.cmp limit ((k, x) ∷ h) → AnswersRuns ⟦<FastKey as Ord>⟧.cmp limit k x h fed }
{}
