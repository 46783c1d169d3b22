//! The bytes that an input in memory has left.
use std::marker::Model;

/// The bytes that are left, of which a read moves at most some number.
#[derive(Drop)]
pub(crate) struct Supply {
    bytes: Vec<u8>,
    at: usize,
    most: usize,
}

impl Model for Supply {
    ghost use Rattle.std.specs.Prelude.{◌≤◌, ◌<◌, drop, vec_len};
    ghost use Rattle.gate_outside.specs.QuietInput.{QuietInput};

    ghost Value = { QuietInput };

    ghost view = { λ s. record { left = drop s.at s.bytes.items; most = s.most } };

    ghost invariant = { λ s. (s.at ≤ vec_len s.bytes) × (0 < s.most) };
}

impl Supply {
    ghost use Rattle.std.specs.Prelude.{◌≡◌, ◌<◌, min, length, take, drop};

    pub(crate) fn of(bytes: Vec<u8>, most: usize) -> Self
        requires { 0 < most }
        ensures { result ≡ record { left = bytes.items; most = most } }
    {
        Supply { bytes, at: 0, most }
    }

    /// Moves the next bytes into the front of the buffer, and answers how many.
    pub(crate) fn move_into(&mut self, buf: &mut [u8]) -> usize
        ensures count { result ≡ min (min self.old.most (length buf.old)) (length self.old.left) }
        ensures moved { take result buf.new ≡ take result self.old.left }
        ensures rest { self.new ≡ record self.old { left = drop result self.old.left } }
        ensures some { 0 < self.old.most }
    {
        let left = &self.bytes[self.at..];
        let count = self.most.min(buf.len()).min(left.len());
        buf[..count].copy_from_slice(&left[..count]);
        self.at += count;
        count
    }
}
