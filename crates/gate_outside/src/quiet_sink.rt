//! An output in memory that never fails.
use crate::record::Record;
use crate::{Failed, Sink};
use std::alloc::{AllocError, Global};
use std::marker::Model;

/// An output in memory whose writes never fail. It tells what it took for as long as that is no more
/// than its room.
#[derive(Drop)]
pub struct QuietSink {
    record: Record,
    most: usize,
}

impl Model for QuietSink {
    ghost use Rattle.std.specs.Prelude.{◌<◌};
    ghost use Rattle.gate_outside.specs.QuietOutput.{QuietOutput};

    ghost Value = { QuietOutput };

    ghost view = { λ s. record { taken = s.record.taken; room = s.record.room; most = s.most } };

    ghost invariant = { λ s. 0 < s.most };
}

impl QuietSink {
    ghost use Rattle.std.specs.Prelude.{◌≡◌, ◌<◌, [], Some, IfOk, IsOk, is_some, unwrap_or};

    /// An output that took nothing yet, tells up to `room` bytes, and moves at most `most` bytes a
    /// write. Its room is reserved here: a room of 0 takes no memory, and no other call takes any.
    pub fn of(alloc: Global, room: u32, most: usize) -> Result<Self, AllocError>
        requires { 0 < most }
        ensures empty { IfOk result (λ sink. sink ≡ record { taken = Some []; room = room; most = most }) }
        ensures succeeds { room ≡ 0 → IsOk result }
    {
        Ok(QuietSink {
            record: Record::with_room(alloc, room)?,
            most,
        })
    }

    /// Whether what was taken is told: until it is more than the room.
    pub fn tells(&self) -> bool
        ensures { result ≡ is_some self.now.taken }
    {
        self.record.tells()
    }

    /// The bytes that are told: none where nothing is told any more.
    pub fn taken(&self) -> &[u8]
        ensures { result.now ≡ unwrap_or self.now.taken [] }
    {
        self.record.bytes()
    }
}

impl Sink for QuietSink {
    ghost use Rattle.std.specs.Prelude.{◌≡◌, ◌<◌, ◌≤◌, length, IfOk};
    ghost use Rattle.gate_outside.specs.Faults.{HasCause};
    ghost use Rattle.gate_outside.specs.Sink.{Writes};
    ghost use Rattle.gate_outside.specs.QuietOutput.{WritesQuietly};

    ghost taken = { λ s. s.taken };

    ghost fault_count = { λ _. 0 };

    fn faults(&self) -> u64 {
        0
    }

    fn write(&mut self, piece: &[u8]) -> Result<usize, Failed>
        ensures bound { IfOk result (λ count. count ≤ length piece.now) }
        ensures some { 0 < length piece.now → IfOk result (λ count. 0 < count) }
        ensures bytes { Writes self.old.taken self.new.taken piece.now result }
        ensures cause { HasCause 0 0 result }
        ensures exact { WritesQuietly self.old self.new piece.now result }
    {
        let count = self.most.min(piece.len());
        self.record.add(&piece[..count]);
        Ok(count)
    }
}
