//! A slot: one entry, with the buffer that its bytes lie in.
ghost use Rattle.std.specs.Prelude.{min, ◌≡◌, ◌+◌, ◌<◌, ◌≤◌, length, vec_len, vec_capacity, IfOk, IfErr};
ghost use Rattle.slot_views.specs.Slots.{grown, has_expired};
ghost use Rattle.slot_views.specs.Shelf.{entry_of, IsFirst, NoneShows, quiet_of};

use crate::buffers::append;

/// An entry with a buffer of its own, whose first bytes are the pieces so far.
#[derive(Drop)]
pub struct Slot<K> {
    pub key: K,
    pub bytes: Vec<u8>,
    pub next: u16,
    pub need: u16,
    pub last: u64,
    pub gap: u32,
    pub mark: u64,
}

// Adds the next piece to the slot.
pub(crate) fn join<K: Copy>(slot: &mut Slot<K>, piece: &[u8], moment: u64, gap: u32)
    requires room { vec_len slot.old.bytes + length piece.now ≤ vec_capacity slot.old.bytes }
    requires awaits { slot.old.next < slot.old.need }
    ensures entry { entry_of slot.new ≡ (slot.old.key, grown (entry_of slot.old).1 piece.now moment gap) }
    ensures len { vec_len slot.new.bytes ≡ vec_len slot.old.bytes + length piece.now }
    ensures capacity { vec_capacity slot.old.bytes ≤ vec_capacity slot.new.bytes }
{
    append(&mut slot.bytes, piece);
    slot.next += 1;
    slot.last = moment;
    slot.gap = gap;
}

// The first slot that has expired at the moment, or up to when none will.
pub(crate) fn first_expired<K: Copy>(slots: &Vec<Slot<K>>, moment: u64) -> Result<usize, u64>
    ensures found { IfOk result (IsFirst (has_expired moment) slots.now.items) }
    ensures absent { IfErr result (λ _. NoneShows (has_expired moment) slots.now.items) }
    ensures quiet { IfErr result (λ until. until ≡ quiet_of slots.now.items) }
{
    let mut quiet_until = u64::MAX;
    for (at, slot) in slots.iter().enumerate() {
        if moment.saturating_sub(slot.last) > u64::from(slot.gap) {
            return Ok(at);
        }
        quiet_until = still_quiet(quiet_until, slot.last, slot.gap);
    }
    Err(quiet_until)
}

// Up to when no entry expires, with one more whose last piece came at the moment.
pub(crate) fn still_quiet(quiet_until: u64, moment: u64, gap: u32) -> u64
    ensures { result ≡ min quiet_until (moment + gap) }
{
    quiet_until.min(moment.saturating_add(u64::from(gap)))
}
