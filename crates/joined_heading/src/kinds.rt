//! The parameter group of the variation.
ghost use Rattle.joined_heading.specs.Variations.{kind_of};
ghost use Rattle.joined_heading.specs.VariationKind.{variation_is_heard};

use bus_listener::{Kind, Kinds};

/// PGN 127258, magnetic variation (canboat): at byte 4 the variation as i16 in 1e-4 radian, positive to the east.
const VARIATION: u32 = 127_258;

/// The one parameter group that is heard.
pub(crate) struct OfVariation;

impl Kinds for OfVariation {
    ghost kinds = { λ heard. kind_of };

    fn kind(&self, pgn: u32) -> Kind {
        if pgn == VARIATION {
            Kind::Single
        } else {
            Kind::Outside
        }
    }

    ghost heard = { λ heard. variation_is_heard };
}
