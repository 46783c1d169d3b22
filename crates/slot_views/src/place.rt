//! Where a key stands.

/// A key, and where it stands among those that are held until they change (`Slots::find`). So it is looked for once for several calls.
#[derive(Clone, Copy)]
pub struct Place<K> {
    pub key: K,
    /// The place of its entry, or else the one that an entry of it would have.
    pub at: Result<usize, usize>,
}
