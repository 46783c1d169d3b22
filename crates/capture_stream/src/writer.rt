//! Gathers what is written, so that many short texts cost one call.
ghost use Rattle.std.specs.Prelude.{[], OnErr};
ghost use Rattle.gate_outside.specs.Faults.{HasCause};
ghost use Rattle.capture_stream.specs.Writer.{SendsPart, Writes};

use arrayvec::ArrayVec;
use capture_text::{LONGEST_LINE, write_emit};
use gate_events::Emit;
use gate_outside::{Failed, Sink};
use std::marker::Model;

/// How many bytes may wait.
const ROOM: usize = 32768;

/// Bytes that wait to be written.
#[derive(Drop)]
pub struct Writer {
    waiting: ArrayVec<u8, ROOM>,
    /// Room for the line of an emit, kept so that it isn't made anew for each.
    line: ArrayVec<u8, LONGEST_LINE>,
}

impl Model for Writer {
    ghost use Rattle.std.specs.Prelude.{ℕ, List};

    ghost Value = { List ℕ };

    ghost view = { λ w. w.waiting.items };
}

/// Writes the whole piece, or the part of it that the sink takes before a write fails.
pub fn send_now<K: Sink>(piece: &[u8], out: &mut K) -> Result<(), Failed>
    ensures sent { Writes (K.taken out.old) (K.taken out.new) piece.now [] result }
    ensures part { OnErr result (SendsPart (K.taken out.old) (K.taken out.new) piece.now) }
    ensures cause { HasCause (K.fault_count out.old) (K.fault_count out.new) result }
{
    let mut rest = piece;
    while !rest.is_empty() {
        match out.write(rest) {
            Ok(count) => rest = &rest[count..],
            Err(Failed) => return Err(Failed),
        }
    }
    Ok(())
}

impl Writer {
    ghost use Rattle.std.specs.Prelude.{◌≡◌, ◌+◌, ◌<◌, [], ◌∷◌, ◌++◌, length, OnErr, OnOk};
    ghost use Rattle.std.specs.List.{flat_map};
    ghost use Rattle.capture_text.specs.Writing.{line_text};
    ghost use Rattle.gate_events.specs.Emit.{CanWrite};
    ghost use Rattle.gate_outside.specs.Faults.{HasCause};
    ghost use Rattle.capture_stream.specs.Writer.{Writes};

    pub fn new() -> Self
        ensures { result ≡ [] }
    {
        Writer {
            waiting: ArrayVec::new(),
            line: ArrayVec::new(),
        }
    }

    /// Writes all that waits.
    pub fn flush<K: Sink>(&mut self, out: &mut K) -> Result<(), Failed>
        ensures sent { Writes (K.taken out.old) (K.taken out.new) self.old [] result }
        ensures none { OnOk result (self.new ≡ []) }
        ensures kept { OnErr result (self.new ≡ self.old) }
        ensures cause { HasCause (K.fault_count out.old) (K.fault_count out.new) result }
    {
        send_now(self.waiting.as_slice(), out)?;
        self.waiting.clear();
        Ok(())
    }

    // Writes all that waits, and lets a text wait. One that is longer than may wait is written at once.
    fn send_anew<K: Sink>(&mut self, text: &[u8], out: &mut K) -> Result<(), Failed>
        ensures sent { Writes (K.taken out.old) (K.taken out.new) (self.old ++ text.now) self.new result }
        ensures cause { HasCause (K.fault_count out.old) (K.fault_count out.new) result }
    {
        match self.flush(out) {
            Ok(()) => {}
            Err(Failed) => return Err(Failed),
        }
        if text.len() > ROOM {
            return send_now(text, out);
        }
        let _fits = self.waiting.try_extend_from_slice(text);
        Ok(())
    }

    /// Lets a text wait behind what waits, which is written first where there is no room for both.
    pub fn send<K: Sink>(&mut self, text: &[u8], out: &mut K) -> Result<(), Failed>
        ensures sent { Writes (K.taken out.old) (K.taken out.new) (self.old ++ text.now) self.new result }
        ensures cause { HasCause (K.fault_count out.old) (K.fault_count out.new) result }
    {
        if text.len() > self.waiting.remaining_capacity() {
            return self.send_anew(text, out);
        }
        let _fits = self.waiting.try_extend_from_slice(text);
        Ok(())
    }

    // Leaves room for the longest line of an emit and its end: what waits is written first where there is none.
    fn make_room<K: Sink>(&mut self, out: &mut K) -> Result<(), Failed>
        ensures sent { Writes (K.taken out.old) (K.taken out.new) self.old self.new result }
        ensures room { OnOk result (length self.new + 4096 < 32768) }
        ensures cause { HasCause (K.fault_count out.old) (K.fault_count out.new) result }
    {
        if self.waiting.remaining_capacity() > LONGEST_LINE {
            return Ok(());
        }
        self.flush(out)
    }

    /// Lets the line of an emit at a moment wait, and its line end.
    pub fn send_emit<K: Sink>(
        &mut self,
        emit: &Emit<'_>,
        moment: u64,
        out: &mut K,
    ) -> Result<(), Failed>
        requires { CanWrite emit.now }
        ensures sent { Writes (K.taken out.old) (K.taken out.new) (self.old ++ (line_text emit.now moment ++ 10 ∷ [])) self.new result }
        ensures cause { HasCause (K.fault_count out.old) (K.fault_count out.new) result }
    {
        match self.make_room(out) {
            Ok(()) => {}
            Err(Failed) => return Err(Failed),
        }
        self.line.clear();
        write_emit(emit, moment, &mut self.line);
        let _fits = self.waiting.try_extend_from_slice(self.line.as_slice());
        let _ended = self.waiting.try_extend_from_slice(b"\n");
        Ok(())
    }

    /// Lets these pieces wait, one behind the other.
    pub fn send_all<K: Sink>(&mut self, pieces: &[&[u8]], out: &mut K) -> Result<(), Failed>
        ensures sent { Writes (K.taken out.old) (K.taken out.new) (self.old ++ flat_map (λ piece. piece.now) pieces.now) self.new result }
        ensures cause { HasCause (K.fault_count out.old) (K.fault_count out.new) result }
    {
        for piece in pieces {
            match self.send(piece, out) {
                Ok(()) => {}
                Err(Failed) => return Err(Failed),
            }
        }
        Ok(())
    }
}
