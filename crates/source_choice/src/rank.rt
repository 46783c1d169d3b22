/// The rank of a source: its place among those that are preferred, and then its NAME. The smaller rank is the better one.
#[derive(Clone, Copy, PartialEq, Eq, PartialOrd, Ord)]
pub struct Rank {
    /// The place in the list, from 0; the length of the list for others.
    pub place: u8,
    /// The NAME as a number (ISO 11783-5), or 0 where sources have none.
    pub name: u64,
}
