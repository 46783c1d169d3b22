//! How quantities besides the rows are said.

use crate::quantity_configs::QuantityConfigs;
use arrayvec::ArrayVec;
use config_values::USUAL_TIMEOUT_MS;
use n2k_id::Pattern;
use sentence_text::Group;

/// Whom a quantity is taken from, and who says it.
#[derive(Clone, Drop)]
pub struct QuantityConfig {
    /// The devices that it is taken from, in their order of preference.
    pub sources: ArrayVec<Pattern, 16>,
    /// Whether others are taken after them.
    pub others: bool,
    /// How long a source counts after its last usable message, in milliseconds.
    pub timeout_ms: u32,
    /// The talker of its sentence, two capital letters.
    pub talker: [u8; 2],
}

impl Default for QuantityConfig {
    ghost use Rattle.std.specs.Prelude.{◌≡◌};
    ghost use Rattle.settings.specs.Setup.{usual_quantity};

    ghost is_default = { λ q. q ≡ usual_quantity };

    /// Taken from all alike, with the timeout that stands where no other was put; the talker is that of integrated instruments.
    fn default() -> QuantityConfig {
        QuantityConfig {
            sources: ArrayVec::new(),
            others: true,
            timeout_ms: USUAL_TIMEOUT_MS,
            talker: *b"II",
        }
    }
}

/// How quantities besides the rows are said.
#[derive(Clone, Drop)]
pub struct Quantities {
    /// The transmission group that they are sent to, which is sent nothing else.
    pub group: Group,
    /// How many of their fast packets may be open, 1 to 256.
    pub slots: u16,
    /// Whether the boat has two engines: the first is then the one to port.
    pub twin_engines: bool,
    /// Each of them, in the order of the quantities.
    pub each: QuantityConfigs,
}
