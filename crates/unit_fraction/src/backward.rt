//! Text that is written from its last byte to its first, as the digits of a number come.

ghost use Rattle.std.specs.Prelude.{◌≡◌, ◌<◌, [], ◌∷◌, length};

use std::marker::Model;

/// More than a sign, twenty digits, a point and twelve decimals.
pub(crate) const ROOM: usize = 40;

#[derive(Drop)]
pub(crate) struct Backward {
    bytes: [u8; ROOM],
    start: usize,
}

impl Model for Backward {
    ghost use Rattle.std.specs.Prelude.{ℕ, List, drop, ◌≤◌};

    ghost Value = { List ℕ };

    ghost view = { λ b. drop b.start b.bytes };

    ghost invariant = { λ b. b.start ≤ 40 };
}

impl Backward {
    pub(crate) fn new() -> Backward
        ensures { result ≡ [] }
    {
        Backward {
            bytes: [0; ROOM],
            start: ROOM,
        }
    }

    pub(crate) fn put(&mut self, byte: u8)
        requires { length self.old < ROOM }
        ensures { self.new ≡ byte ∷ self.old }
    {
        self.start -= 1;
        self.bytes[self.start] = byte;
    }

    pub(crate) fn as_slice(&self) -> &[u8]
        ensures { result.now ≡ self.now }
    {
        &self.bytes[self.start..]
    }
}
