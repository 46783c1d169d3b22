ghost use Rattle.std.specs.Prelude.{◌≡◌};
ghost use Rattle.source_choice.specs.Notes.{is_fresh, outranks};

use crate::rank::Rank;

/// What a source said last of a subject.
#[derive(Clone, Copy)]
pub(crate) struct Note {
    pub source: u8,
    pub rank: Rank,
    /// When, in microseconds.
    pub moment: u64,
    /// Whether it says anything of the subject.
    pub usable: bool,
}

impl Note {
    /// Whether it keeps back another source of this rank at this moment.
    pub fn outranks(&self, timeout: u32, source: u8, rank: Rank, moment: u64) -> bool
        ensures { result ≡ outranks timeout source rank moment self.now }
    {
        self.source != source && self.rank < rank && self.is_fresh(timeout, moment)
    }

    /// Whether it is usable, and at most the timeout, in milliseconds, older than the moment.
    fn is_fresh(&self, timeout: u32, moment: u64) -> bool
        ensures { result ≡ is_fresh timeout moment self.now }
    {
        self.usable && moment.saturating_sub(self.moment) <= 1000 * u64::from(timeout)
    }
}
