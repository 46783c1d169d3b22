//! What is promised of slots over a list of pieces, each of a key.
ghost use Rattle.std.specs.Prelude.{◌≡◌, ℕ, ◌≤◌, Bool, true, List, None, is_some};
ghost use Rattle.std.specs.List.{AllByRecursion, find};
ghost use Rattle.slot_views.specs.Slots.{SlotMap, Entry, without, remaining};
ghost use Rattle.slot_views.specs.Laws.{TellsApart, EndsTheFirst};
ghost use Rattle.slot_views.specs.Traces.{Filling, IsStep, IsNoted, Joins, entry_after, left_at};

/// Where one piece does to the map what a step says of its key's entry alone, all pieces leave of each key's entry what that
/// key's own pieces leave, and the map holds as many keys as are open.
pub fn keys_stand_apart<K: Copy + Ord, P>(_pieces: &[(K, P)])
    ensures { (f : Filling P) (after : SlotMap K → K → P → SlotMap K) (fits : P → Bool) (is_open : List P → ℕ → Bool) → IsStep K.cmp f after
        → ((p : List P) (m : ℕ) → AllByRecursion (λ x. fits x ≡ true) p → is_open p m ≡ is_some (left_at (entry_after f p) m))
        → (limit : ℕ) (h : List (K × P)) → 1 ≤ limit → AllByRecursion (λ n. fits n.1 ≡ true) h
        → IsNoted K.cmp f.moment f.admitted is_open limit h → Joins K.cmp f after is_open limit h }
{}

/// The first entry that passes a test ends alone; where none passes, nothing changes. So it is with every test, where keys that
/// stand at one place are one key.
pub fn first_entry_ends<K: Copy + Ord>(_keys: &[K])
    ensures { TellsApart K.cmp → EndsTheFirst K.cmp }
{}

/// Ending one entry that passes a test after another, until none is left, leaves the map without all of them.
pub fn entries_end_one_by_one<K: Copy + Ord>(_keys: &[K])
    ensures all { (s : SlotMap K) (p : K × Entry → Bool) → find p s.entries ≡ None → remaining p s ≡ s }
    ensures one { (s : SlotMap K) (p : K × Entry → Bool) → remaining p (without s p) ≡ remaining p s }
{}
