//! The buffers, and the lists that keep them: all room is reserved at the start, so none of these calls takes memory but the first.
ghost use Rattle.std.specs.Prelude.{◌≡◌, ◌+◌, ◌<◌, ◌≤◌, [], ◌∷◌, ◌++◌, length, vec_len, vec_capacity, IfOk};
ghost use Rattle.std.specs.List.{insert, AllByRecursion};

use crate::slot::Slot;
use std::alloc::{AllocError, Global};

// Room for that many bytes, that many times.
pub(crate) fn buffers(alloc: Global, count: u16, size: usize) -> Result<Vec<Vec<u8>>, AllocError>
    ensures count { IfOk result (λ v. vec_len v ≡ count) }
    ensures room { IfOk result (λ v. count ≤ vec_capacity v) }
    ensures sizes { IfOk result (λ v. AllByRecursion (λ b. size ≤ vec_capacity b) v.items) }
{
    let mut all = Vec::with_capacity(alloc, usize::from(count))?;
    for _ in 0..count {
        all.push(Vec::with_capacity(alloc, size)?)?;
    }
    Ok(all)
}

// Puts the piece in the place of the bytes, which have the room.
pub(crate) fn refill(bytes: &mut Vec<u8>, piece: &[u8])
    requires { length piece.now ≤ vec_capacity bytes.old }
    ensures items { bytes.new.items ≡ piece.now }
    ensures len { vec_len bytes.new ≡ length piece.now }
    ensures capacity { vec_capacity bytes.old ≤ vec_capacity bytes.new }
{
    bytes.clear();
    append(bytes, piece);
}

// Joins the piece to the bytes, which have the room.
pub(crate) fn append(bytes: &mut Vec<u8>, piece: &[u8])
    requires { vec_len bytes.old + length piece.now ≤ vec_capacity bytes.old }
    ensures items { bytes.new.items ≡ bytes.old.items ++ piece.now }
    ensures len { vec_len bytes.new ≡ vec_len bytes.old + length piece.now }
    ensures capacity { vec_capacity bytes.old ≤ vec_capacity bytes.new }
{
    let _ = bytes.extend_from_slice(piece);
}

// Puts the buffer last among the spare ones, where there is room.
pub(crate) fn keep(spare: &mut Vec<Vec<u8>>, bytes: Vec<u8>)
    requires { vec_len spare.old < vec_capacity spare.old }
    ensures items { spare.new.items ≡ spare.old.items ++ bytes ∷ [] }
    ensures len { vec_len spare.new ≡ vec_len spare.old + 1 }
    ensures capacity { vec_capacity spare.old ≤ vec_capacity spare.new }
{
    let _ = spare.push(bytes);
}

// Puts the slot in its place, where there is room.
pub(crate) fn put<K: Copy>(slots: &mut Vec<Slot<K>>, at: usize, slot: Slot<K>)
    requires room { vec_len slots.old < vec_capacity slots.old }
    requires in_range { at ≤ vec_len slots.old }
    ensures items { slots.new.items ≡ insert slots.old.items at slot }
    ensures len { vec_len slots.new ≡ vec_len slots.old + 1 }
    ensures capacity { vec_capacity slots.old ≤ vec_capacity slots.new }
{
    let _ = slots.insert(at, slot);
}
