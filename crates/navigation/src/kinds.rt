//! The parameter groups of plotters.
ghost use Rattle.navigation.specs.Legs.{kind_of};
ghost use Rattle.navigation.specs.NavKinds.{plotters_are_heard};

use bus_listener::{Kind, Kinds};

/// PGN 129284, navigation data: a leg.
pub(crate) const LEG: u32 = 129_284;

/// PGN 129283, cross track error.
pub(crate) const ERROR: u32 = 129_283;

/// Legs, and errors from their lines.
pub(crate) struct OfPlotters;

impl Kinds for OfPlotters {
    ghost kinds = { λ heard. kind_of };

    fn kind(&self, pgn: u32) -> Kind {
        match pgn {
            LEG => Kind::Fast,
            ERROR => Kind::Single,
            _ => Kind::Outside,
        }
    }

    ghost heard = { λ heard. plotters_are_heard };
}
