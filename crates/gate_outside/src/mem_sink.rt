//! An output in memory that fails at the writes that it is told to.
use crate::failures::Failures;
use crate::record::Record;
use crate::{Failed, Sink};
use std::alloc::{AllocError, Global};
use std::marker::Model;

/// An output in memory. It tells what it took for as long as that is no more than its room.
#[derive(Drop)]
pub struct MemSink {
    record: Record,
    most: usize,
    failures: Failures,
}

impl Model for MemSink {
    ghost use Rattle.gate_outside.specs.MemOutput.{MemOutput};

    ghost Value = { MemOutput };

    ghost view = { λ s. record { taken = s.record.taken; room = s.record.room; most = s.most; script = s.failures } };
}

impl MemSink {
    ghost use Rattle.std.specs.Prelude.{◌≡◌, [], Some, IfOk, IsOk, is_some, unwrap_or};

    /// An output that took nothing yet, tells up to `room` bytes, and moves at most `most` bytes a
    /// write. The writes whose numbers stand in `failing`, counted from 1, fail; with a `most` of 0
    /// each write of a piece that isn't empty does. Its room is reserved here: a room of 0 takes no
    /// memory, and no other call takes any.
    pub fn of(alloc: Global, room: u32, most: usize, failing: Vec<u32>) -> Result<Self, AllocError>
        ensures empty { IfOk result (λ sink. sink ≡ record {
          taken = Some [];
          room = room;
          most = most;
          script = record { failing = failing.items; calls = 0; faults = 0 };
        }) }
        ensures succeeds { room ≡ 0 → IsOk result }
    {
        Ok(MemSink {
            record: Record::with_room(alloc, room)?,
            most,
            failures: Failures::at(failing),
        })
    }

    /// Whether what was taken is told: until it is more than the room.
    pub fn tells(&self) -> bool
        ensures { result ≡ is_some self.now.taken }
    {
        self.record.tells()
    }

    /// The bytes that are told: none where nothing is told any more.
    pub fn taken(&self) -> &[u8]
        ensures { result.now ≡ unwrap_or self.now.taken [] }
    {
        self.record.bytes()
    }
}

impl Sink for MemSink {
    ghost use Rattle.std.specs.Prelude.{◌≡◌, ◌<◌, ◌≤◌, length, IfOk};
    ghost use Rattle.gate_outside.specs.Faults.{HasCause};
    ghost use Rattle.gate_outside.specs.Sink.{Writes};
    ghost use Rattle.gate_outside.specs.MemOutput.{WritesMemory};

    ghost taken = { λ s. s.taken };

    ghost fault_count = { λ s. s.script.faults };

    fn faults(&self) -> u64 {
        self.failures.faults()
    }

    fn write(&mut self, piece: &[u8]) -> Result<usize, Failed>
        ensures bound { IfOk result (λ count. count ≤ length piece.now) }
        ensures some { 0 < length piece.now → IfOk result (λ count. 0 < count) }
        ensures bytes { Writes self.old.taken self.new.taken piece.now result }
        ensures cause { HasCause self.old.script.faults self.new.script.faults result }
        ensures exact { WritesMemory self.old self.new piece.now result }
    {
        let failed = self.failures.is_next() || (self.most == 0 && !piece.is_empty());
        self.failures.count(failed);
        if failed {
            return Err(Failed);
        }
        let count = self.most.min(piece.len());
        self.record.add(&piece[..count]);
        Ok(count)
    }
}
