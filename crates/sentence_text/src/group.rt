ghost use Rattle.std.specs.Prelude.{◌≡◌, ◌↔◌, IsSome, IfSome};
ghost use Rattle.sentence_text.specs.Names.{IsGroup};

use crate::byte::all_address;
use std::marker::Model;

/// The name of a transmission group of IEC 61162-450, such as `NAVD`: four capital letters or digits.
#[derive(Clone, Copy, PartialEq, Eq)]
pub struct Group([u8; 4]);

impl Model for Group {
    ghost use Rattle.std.specs.Prelude.{ℕ, List};
    ghost use Rattle.sentence_text.specs.Names.{IsGroup};

    ghost Value = { List ℕ };

    ghost view = { λ g. g.0 };

    ghost invariant = { λ g. IsGroup g.0 };

    ghost inverse = { λ text. record { 0 = text } };
}

impl Default for Group {
    ghost use Rattle.std.specs.Prelude.{codes};

    ghost is_default = { λ name. name ≡ codes "NAVD" };

    /// Navigational data, the group of all that has no other.
    fn default() -> Group {
        Group(*b"NAVD")
    }
}

impl Group {
    /// The group of this name; None for every other text.
    pub fn of(text: &[u8]) -> Option<Group>
        ensures form { IsSome result ↔ IsGroup text.now }
        ensures value { IfSome result (λ group. group ≡ text.now) }
    {
        let bytes: [u8; 4] = text.try_into().ok()?;
        if all_address(text) {
            Some(Group(bytes))
        } else {
            None
        }
    }

    /// Its four characters.
    pub fn as_bytes(&self) -> &[u8; 4]
        ensures text { result.now ≡ self.now }
        ensures form { IsGroup self.now }
    {
        &self.0
    }
}
