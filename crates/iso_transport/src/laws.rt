//! What is promised of messages of the transport protocol, whoever joins them.
ghost use Rattle.std.specs.Prelude.{◌≡◌, ℕ, true, false, List, ◌∷◌, Option};
ghost use Rattle.slot_views.specs.RunLaws.{OneStep, OneSuffix};
ghost use Rattle.n2k_id.specs.declared.identifier_parts.Parts.{Parts};
ghost use Rattle.iso_transport.specs.declared.key.IsoKey.{IsoKey};
ghost use Rattle.iso_transport.specs.Audience.{key_of, is_data};
ghost use Rattle.iso_transport.specs.Verdicts.{concerns};
ghost use Rattle.iso_transport.specs.IsoRuns.{IsoPiece, iso_rules};
ghost use Rattle.slot_views.specs.Laws.{TellsApart, EndsTheFirst};
ghost use Rattle.iso_transport.specs.Joining.{FeedsItsKey, StepsWithRuns, OrdersKeys};
ghost use Rattle.iso_transport.specs.Keys.{AreFed, AllFollow, AllAnswered};
ghost use Rattle.iso_transport.specs.Heard.{HeardFrame, AreInOrder, HearsWhatBears};
ghost use Rattle.iso_transport.specs.Laws.{FollowsRuns, HasItsSize};

use crate::key::IsoKey;

/// The frames of one sender to this node, and those to all, have one open prefix at most, and one more frame, or a later moment,
/// does to it what the rules of the transport protocol say of the frames accepted so far alone.
pub fn iso_runs()
    ensures addressed_step { OneStep (iso_rules true) }
    ensures addressed_suffix { OneSuffix (iso_rules true) }
    ensures broadcast_step { OneStep (iso_rules false) }
    ensures broadcast_suffix { OneSuffix (iso_rules false) }
{}

/// A session is the open prefix of the frames of its key: what a frame is to the one, leaves of it and completes, it is to the
/// other, leaves of it and completes. An overdue session is one whose prefix is no longer open, to the microsecond.
pub fn sessions_follow_runs()
    ensures addressed { FollowsRuns true }
    ensures broadcast { FollowsRuns false }
{}

/// A message that is complete has as many bytes as its opener announced.
pub fn messages_have_their_size()
    ensures addressed { HasItsSize true }
    ensures broadcast { HasItsSize false }
{}

/// A frame changes the session of its key alone, and is to all sessions what it is to that one. The first session that passes a test
/// is the one that is taken out, keys that stand at one place are one key, and sessions to all come before those to this node.
pub fn frames_change_their_key_alone()
    ensures feed { FeedsItsKey ⟦<IsoKey as Ord>⟧.cmp }
    ensures ends { EndsTheFirst ⟦<IsoKey as Ord>⟧.cmp }
    ensures keys { TellsApart ⟦<IsoKey as Ord>⟧.cmp }
    ensures order { OrdersKeys ⟦<IsoKey as Ord>⟧.cmp }
{}

/// One frame does to the session of its key what it does to the frames of the key that are open, whatever the other keys hold: the
/// answer is what those frames and this one say, and it leaves what they leave.
pub fn frames_step_with_runs()
    ensures { StepsWithRuns ⟦<IsoKey as Ord>⟧.cmp }
{}

/// Whatever frames of all keys come, the sessions are those of the open prefixes among the frames of each key, and as many as the
/// keys that are open. Each frame is answered as the frames of its key say: a message completes exactly where they end with a run,
/// and is that run's payload; its sender is told what the rules of the run say; and an opener finds no room exactly where as many
/// of the other keys as the limit are open. Frames that concern nobody here, or can neither open, extend nor end a session, leave no
/// trace, wherever they stand among the others.
pub fn all_sessions_follow_runs()
    ensures follows { (limit : ℕ) (h : List (IsoKey × IsoPiece)) → AreFed ⟦<IsoKey as Ord>⟧.cmp limit h → AllFollow ⟦<IsoKey as Ord>⟧.cmp limit h }
    ensures answers { (limit : ℕ) (h : List (IsoKey × IsoPiece)) (own : Option ℕ) (parts : Parts) (x : IsoPiece)
        → AreFed ⟦<IsoKey as Ord>⟧.cmp limit ((key_of parts, x) ∷ h) → concerns own parts ≡ true → x.packet ≡ is_data parts
        → AllAnswered ⟦<IsoKey as Ord>⟧.cmp limit own parts x h }
    ensures heard { (own : Option ℕ) (limit : ℕ) (h : List HeardFrame) → AreInOrder h → HearsWhatBears ⟦<IsoKey as Ord>⟧.cmp own limit h }
{}
