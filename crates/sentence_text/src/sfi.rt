ghost use Rattle.std.specs.Prelude.{◌≡◌, ◌↔◌, IsSome, IfSome};
ghost use Rattle.sentence_text.specs.Names.{IsSfi};

use crate::byte::{all_capital, all_digits};
use std::marker::Model;

/// A system function identifier of IEC 61162-450, such as `II0001`: two capital letters and four digits.
#[derive(Clone, Copy, PartialEq, Eq, PartialOrd, Ord)]
pub struct Sfi([u8; 6]);

impl Model for Sfi {
    ghost use Rattle.std.specs.Prelude.{ℕ, List};
    ghost use Rattle.sentence_text.specs.Names.{IsSfi};

    ghost Value = { List ℕ };

    ghost view = { λ s. s.0 };

    ghost invariant = { λ s. IsSfi s.0 };

    ghost inverse = { λ text. record { 0 = text } };
}

impl Default for Sfi {
    ghost use Rattle.std.specs.Prelude.{codes};

    ghost is_default = { λ name. name ≡ codes "AA0000" };

    /// The first of all, which stands where no other was put.
    fn default() -> Sfi {
        Sfi(*b"AA0000")
    }
}

impl Sfi {
    /// The identifier of this form; None for every other text.
    pub fn of(text: &[u8]) -> Option<Sfi>
        ensures form { IsSome result ↔ IsSfi text.now }
        ensures value { IfSome result (λ sfi. sfi ≡ text.now) }
    {
        let bytes: [u8; 6] = text.try_into().ok()?;
        if all_capital(&text[..2]) && all_digits(&text[2..]) {
            Some(Sfi(bytes))
        } else {
            None
        }
    }

    /// Its six characters.
    pub fn as_bytes(&self) -> &[u8; 6]
        ensures text { result.now ≡ self.now }
        ensures form { IsSfi self.now }
    {
        &self.0
    }
}
