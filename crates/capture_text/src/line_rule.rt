ghost use Rattle.std.specs.Prelude.{◌≡◌};
ghost use Rattle.capture_text.specs.LineRule.{rule_number};

/// The rule that a line of a capture breaks.
#[derive(Clone, Copy, PartialEq, Eq)]
pub enum LineRule {
    /// It has none of the forms of a line.
    Form,
    /// It is a frame of the bus, but no data frame with a 29-bit identifier.
    NotExtended,
    /// It has more than 4096 bytes.
    Long,
}

impl LineRule {
    /// The number by which a report names the rule.
    pub fn number(self) -> u8
        ensures { result ≡ rule_number self }
    {
        match self {
            LineRule::Form => report_rules::CAPTURE_FORM,
            LineRule::NotExtended => report_rules::NOT_EXTENDED,
            LineRule::Long => report_rules::LINE_LONG,
        }
    }
}
