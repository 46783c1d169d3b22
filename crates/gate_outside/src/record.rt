//! The bytes that an output in memory took, for as long as it tells them.
use std::alloc::{AllocError, Global};
use std::marker::Model;

/// The bytes that were taken, up to a room that is reserved. Once more bytes came, nothing is told.
#[derive(Drop)]
pub(crate) struct Record {
    bytes: Vec<u8>,
    room: u32,
    told: bool,
}

impl Model for Record {
    ghost use Rattle.std.specs.Prelude.{◌≤◌, Some, None, vec_len, vec_capacity, if◌then◌else◌};
    ghost use Rattle.gate_outside.specs.Told.{Told};

    ghost Value = { Told };

    ghost view = { λ r. record { taken = if r.told then Some r.bytes.items else None; room = r.room } };

    ghost invariant = { λ r. (vec_len r.bytes ≤ r.room) × (r.room ≤ vec_capacity r.bytes) };
}

impl Record {
    ghost use Rattle.std.specs.Prelude.{◌≡◌, [], Some, IfOk, IsOk, is_some, unwrap_or};
    ghost use Rattle.gate_outside.specs.Told.{told_with};

    /// Nothing yet, with room for so many bytes. A room of 0 takes no memory.
    pub(crate) fn with_room(alloc: Global, room: u32) -> Result<Self, AllocError>
        ensures empty { IfOk result (λ r. r ≡ record { taken = Some []; room = room }) }
        ensures succeeds { room ≡ 0 → IsOk result }
    {
        let bytes = Vec::with_capacity(alloc, room as usize)?;
        Ok(Record {
            bytes,
            room,
            told: true,
        })
    }

    pub(crate) fn tells(&self) -> bool
        ensures { result ≡ is_some self.now.taken }
    {
        self.told
    }

    /// The bytes that are told.
    pub(crate) fn bytes(&self) -> &[u8]
        ensures { result.now ≡ unwrap_or self.now.taken [] }
    {
        if self.told { &self.bytes } else { &[] }
    }

    pub(crate) fn add(&mut self, piece: &[u8])
        ensures { self.new ≡ record self.old { taken = told_with self.old.taken self.old.room piece.now } }
    {
        if piece.len() <= self.room as usize - self.bytes.len() {
            self.told = self.told && self.bytes.extend_from_slice(piece).is_ok();
        } else {
            self.told = false;
        }
    }
}
