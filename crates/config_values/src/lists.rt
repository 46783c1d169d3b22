//! Lists of which each item is valid, or in which nothing stands twice.
ghost use Rattle.std.specs.Prelude.{◌↔◌, All, IsTrue};
ghost use Rattle.std.specs.List.{AllPairs};

/// What can have values that can't be configured.
pub(crate) trait Valid {
    /// What it means that it can be configured so.
    ghost is_valid: { Self → Type 0 };

    /// Whether it can be configured so.
    fn is_valid(&self) -> bool
        ensures { IsTrue result ↔ is_valid self.now };
}

/// What can't stand in one list with everything of its kind.
pub(crate) trait Apart {
    /// What it means that two of them can stand in one list.
    ghost are_apart: { Self → Self → Type 0 };

    /// Whether both can stand in one list.
    fn is_apart(&self, other: &Self) -> bool
        ensures { IsTrue result ↔ are_apart self.now other.now };
}

/// Whether each of the list can be configured so.
pub(crate) fn are_valid<T: Valid>(list: &[T]) -> bool
    ensures { IsTrue result ↔ All T.is_valid list.now }
{
    list.iter().all(|item| item.is_valid())
}

/// Whether each can stand beside all others of the list.
pub(crate) fn are_apart<T: Apart>(list: &[T]) -> bool
    ensures { IsTrue result ↔ AllPairs T.are_apart list.now }
{
    for (place, item) in list.iter().enumerate() {
        if !is_apart_from(item, &list[place + 1..]) {
            return false;
        }
    }
    true
}

/// Whether the item can stand beside each of the others.
pub(crate) fn is_apart_from<T: Apart>(item: &T, others: &[T]) -> bool
    ensures { IsTrue result ↔ All (T.are_apart item.now) others.now }
{
    others.iter().all(|other| item.is_apart(other))
}
