ghost use Rattle.std.specs.Prelude.{◌≡◌};

/// The rules of the TAG blocks of a line.
#[derive(Clone, Copy, PartialEq, Eq)]
pub enum TagRule {
    /// A byte can't continue the blocks, or the value of a group or of a count has another form.
    Form,
    /// The sum of a block differs.
    Sum,
    /// There is no source, or it is no system function identifier.
    NoSource,
}

/// The first rule that a line breaks, and the place.
#[derive(Clone, Copy, PartialEq, Eq)]
pub struct TagFault {
    pub rule: TagRule,
    pub place: usize,
}

impl TagRule {
    pub(crate) fn at(self, place: usize) -> TagFault
        ensures { result ≡ record { rule = self; place = place } }
    {
        TagFault { rule: self, place }
    }
}
