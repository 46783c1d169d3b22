//! Whom a row is taken from, and how it is said.
ghost use Rattle.std.specs.Prelude.{◌↔◌, IsTrue};
ghost use Rattle.std.specs.Int.{IsInRange};
ghost use Rattle.config_values.specs.Rows.{AreSources, IsTalker};

use crate::lists::{Valid, are_apart, are_valid};
use arrayvec::ArrayVec;
use n2k_id::Pattern;
use sentence_text::Group;

/// Whom a row is taken from, and how it is said.
#[derive(Clone, Drop)]
pub struct RowConfig {
    /// The devices that it is taken from, in their order of preference.
    pub sources: ArrayVec<Pattern, 16>,
    /// Whether others are taken after them.
    pub others: bool,
    /// How long a source counts after its last usable message, in milliseconds.
    pub timeout_ms: u32,
    /// The talker of its sentences, two capital letters.
    pub talker: [u8; 2],
    /// The transmission group that they are sent to.
    pub group: Group,
}

/// The least and the greatest timeout, in milliseconds.
const LEAST_TIMEOUT_MS: u32 = 100;

const MOST_TIMEOUT_MS: u32 = 60_000;

/// The timeout where no other is configured, in milliseconds.
pub const USUAL_TIMEOUT_MS: u32 = 5_000;

impl Default for RowConfig {
    ghost use Rattle.std.specs.Prelude.{◌≡◌, [], true, codes};
    ghost use Rattle.config_values.specs.Rows.{usual_timeout};

    ghost is_default = { λ row. (row.sources.items ≡ []) × (row.others ≡ true) × (row.timeout_ms ≡ usual_timeout) × (row.talker ≡ codes "IN")
        × (row.group ≡ codes "NAVD") };

    /// Taken from all alike, with the timeout that stands where no other was put; the talker is that of integrated navigation.
    fn default() -> RowConfig {
        RowConfig {
            sources: ArrayVec::new(),
            others: true,
            timeout_ms: USUAL_TIMEOUT_MS,
            talker: *b"IN",
            group: Group::default(),
        }
    }
}

impl Valid for RowConfig {
    ghost use Rattle.config_values.specs.Rows.{IsRow};

    ghost is_valid = { IsRow };

    fn is_valid(&self) -> bool {
        are_sources(self.sources.as_slice())
            && is_timeout(self.timeout_ms)
            && is_talker(&self.talker)
    }
}

/// Whether each is a pattern of NAMEs, and none stands twice.
fn are_sources(patterns: &[Pattern]) -> bool
    ensures { IsTrue result ↔ AreSources patterns.now }
{
    are_valid(patterns) && are_apart(patterns)
}

fn is_timeout(milliseconds: u32) -> bool
    ensures { IsTrue result ↔ IsInRange 100 60000 milliseconds }
{
    (LEAST_TIMEOUT_MS..=MOST_TIMEOUT_MS).contains(&milliseconds)
}

/// Whether both are capital letters.
fn is_talker(talker: &[u8; 2]) -> bool
    ensures { IsTrue result ↔ IsTalker talker.now }
{
    talker.iter().all(|byte| byte.is_ascii_uppercase())
}
