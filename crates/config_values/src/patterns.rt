//! The patterns by which devices are chosen.
ghost use Rattle.std.specs.Prelude.{◌≤◌, ◌↔◌, IsTrue};
ghost use Rattle.config_values.specs.Patterns.{Fits};

use crate::lists::{Apart, Valid};
use n2k_id::Pattern;

impl Apart for Pattern {
    ghost use Rattle.std.specs.Prelude.{◌≢◌};

    ghost are_apart = { λ p q. p ≢ q };

    fn is_apart(&self, other: &Pattern) -> bool {
        self != other
    }
}

impl Valid for Pattern {
    ghost use Rattle.config_values.specs.Patterns.{IsPattern};

    ghost is_valid = { IsPattern };

    fn is_valid(&self) -> bool {
        fits(21, self.unique)
            && fits(11, self.manufacturer.map(u32::from))
            && byte_fits(3, self.instance_lower)
            && byte_fits(5, self.instance_upper)
            && byte_fits(1, self.reserved)
            && byte_fits(7, self.class)
            && byte_fits(4, self.system_instance)
            && byte_fits(3, self.industry)
    }
}

/// Whether the value isn't stated, or has no more than so many bits.
fn fits(width: u32, stated: Option<u32>) -> bool
    requires { width ≤ 21 }
    ensures { IsTrue result ↔ Fits width stated }
{
    match stated {
        None => true,
        Some(value) => value < 1 << width,
    }
}

/// Whether the value isn't stated, or has no more than so many bits.
fn byte_fits(width: u32, stated: Option<u8>) -> bool
    requires { width ≤ 21 }
    ensures { IsTrue result ↔ Fits width stated }
{
    fits(width, stated.map(u32::from))
}
