ghost use Rattle.std.specs.Prelude.{◌≡◌};

/// The rules of a sentence, in the order in which they are tried.
#[derive(Clone, Copy, PartialEq, Eq)]
pub enum SentenceRule {
    /// The line has more than 120 bytes.
    Long,
    /// It begins with neither `$` nor `!`.
    Start,
    /// The address isn't 3 to 12 capital letters and digits.
    Address,
    /// The line ends before `*`.
    NoSum,
    /// A byte that no field may hold comes before `*`.
    Byte,
    /// A digit of the sum is missing or is none, or the sum differs.
    Sum,
    /// Something other than CR and LF follows the sum.
    End,
}

/// The first rule that a line breaks, and the place of the byte that breaks it.
#[derive(Clone, Copy, PartialEq, Eq)]
pub struct SentenceFault {
    pub rule: SentenceRule,
    pub place: usize,
}

impl SentenceRule {
    pub(crate) fn at(self, place: usize) -> SentenceFault
        ensures { result ≡ record { rule = self; place = place } }
    {
        SentenceFault { rule: self, place }
    }
}
