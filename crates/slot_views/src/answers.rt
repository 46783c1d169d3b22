//! What the slots answer.

/// The finished bytes of an entry, lent from the slots, and the entry's mark.
#[derive(Clone, Copy)]
pub struct View<'a> {
    pub bytes: &'a [u8],
    pub mark: u64,
}

/// The answer to `Slots::begin`.
#[derive(Clone, Copy)]
pub enum Begun<'a> {
    /// The key isn't held, and as many keys as the limit are. Nothing changed.
    Full,
    /// The key is held now. `replaced` says that it was held before.
    Held { replaced: bool },
    /// One piece was the whole message: here it is, and the key isn't held.
    Complete { replaced: bool, view: View<'a> },
}

/// The answer to `Slots::grow`.
#[derive(Clone, Copy)]
pub enum Grown<'a> {
    /// The key isn't held.
    Absent,
    /// The entry waited for this other number, and is gone.
    NotNext(u16),
    /// The piece was added.
    Held,
    /// The piece was the last one: here is the message, and the key isn't held any more.
    Complete(View<'a>),
}

/// What is known of an entry that is held.
#[derive(Clone, Copy)]
pub struct Kept {
    /// The number of the piece that it waits for.
    pub next: u16,
    /// How many pieces it has in all.
    pub need: u16,
    /// How many bytes were joined so far.
    pub length: u16,
    pub mark: u64,
}

/// An entry that was taken out.
#[derive(Drop)]
pub struct Ended<K> {
    pub key: K,
    pub mark: u64,
}
