use slot_views::{Begun, Grown, Kept, Slots};
use std::test::Fail;

type Small = Slots<u8, 8, 4>;

/// Whether an entry that wasn't there begins with the first of two pieces.
fn begins(slots: &mut Small, key: u8, piece: &[u8; 2], mark: u64) -> bool {
    matches!(
        slots.begin(key, piece, 2, 100, 50, mark),
        Begun::Held { replaced: false }
    )
}

/// Whether the key's entry waits for its second piece.
fn waits(slots: &Small, key: u8, mark: u64) -> bool {
    matches!(
        slots.kept(key),
        Some(Kept { next: 1, need: 2, length: 2, mark: kept }) if kept == mark
    )
}

/// Whether the second piece of 7 hands over the message that `ab` began.
fn completes(slots: &mut Small) -> bool {
    match slots.grow(7, 1, b"cde", 120, 50) {
        Grown::Complete(view) => view.bytes == b"abcde".as_slice() && view.mark == 1,
        _ => false,
    }
}

/// Whether a message of one piece takes the place of what is open of 7.
fn takes_the_place(slots: &mut Small) -> bool {
    match slots.begin(7, b"ef", 1, 120, 50, 3) {
        Begun::Complete { replaced, view } => replaced && view.bytes == b"ef".as_slice(),
        _ => false,
    }
}

/// Whether another number than the next one ends the entry of 7, which isn't there for the next one then.
fn ends(slots: &mut Small) -> bool {
    matches!(slots.grow(7, 2, b"c", 110, 50), Grown::NotNext(1))
        && matches!(slots.grow(7, 1, b"c", 110, 50), Grown::Absent)
}

#[test]
fn entries_of_two_keys_grow_apart_and_lend_their_bytes(rt: HostRuntime) -> Result<(), Fail> {
    let mut slots = Small::new(rt.alloc(), 2)?;
    assert!(rt; begins(&mut slots, 7, b"ab", 1));
    assert!(rt; begins(&mut slots, 4, b"xy", 2));
    assert!(rt; slots.held_bytes(4).unwrap_or(b"") == b"xy".as_slice());
    assert!(rt; waits(&slots, 7, 1));
    assert!(rt; completes(&mut slots));
    assert!(rt; slots.count() == 1);
    assert!(rt; waits(&slots, 4, 2));
    Ok(())
}

#[test]
fn an_entry_of_one_piece_takes_the_place_of_an_open_one(rt: HostRuntime) -> Result<(), Fail> {
    let mut slots = Small::new(rt.alloc(), 1)?;
    assert!(rt; slots.limit() == 1);
    assert!(rt; begins(&mut slots, 7, b"ab", 1));
    assert!(rt; takes_the_place(&mut slots));
    assert!(rt; !slots.give_up(7));
    Ok(())
}

#[test]
fn another_number_ends_the_entry(rt: HostRuntime) -> Result<(), Fail> {
    let mut slots = Small::new(rt.alloc(), 1)?;
    assert!(rt; begins(&mut slots, 7, b"ab", 1));
    assert!(rt; ends(&mut slots));
    Ok(())
}
