//! The parameter groups of further quantities.
ghost use Rattle.quantities.specs.Told.{kind_of};
ghost use Rattle.further_bridge.specs.QuantityKinds.{quantities_are_heard};

use bus_listener::{Kind, Kinds};

/// Those of the table of quantities.
pub(crate) struct OfQuantities;

impl Kinds for OfQuantities {
    ghost kinds = { λ heard. kind_of };

    fn kind(&self, pgn: u32) -> Kind {
        quantities::kind(pgn)
    }

    ghost heard = { λ heard. quantities_are_heard };
}
