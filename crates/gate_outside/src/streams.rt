//! The adapters over the readers and writers of std, such as the standard streams. They tell what std tells
//! of these: of a slice in memory all, of a stream of the system nothing.
use crate::{Failed, Sink, Source};
use std::io::{Read, Write};
use std::marker::Model;

/// A reader as a source. What is left of it is told where std tells what is left of the reader.
#[derive(Drop)]
pub struct ReaderSource<R> {
    reader: R,
    faults: u64,
}

impl<R> Model for ReaderSource<R> {
    ghost use Rattle.gate_outside.specs.Streams.{Stream};

    ghost Value = { Stream R };

    ghost view = { λ s. record { stream = s.reader; faults = s.faults } };
}

impl<R: Read> ReaderSource<R> {
    ghost use Rattle.std.specs.Prelude.{◌≡◌};

    /// The source over a reader, with no fault yet.
    pub fn new(reader: R) -> Self
        ensures { result ≡ record { stream = reader; faults = 0 } }
    {
        ReaderSource { reader, faults: 0 }
    }
}

impl<R: Read> Source for ReaderSource<R> {
    ghost left = { λ s. R.remaining s.stream };

    ghost fault_count = { λ s. s.faults };

    fn faults(&self) -> u64 {
        self.faults
    }

    #[tactic(auto, using(crate::proofs::StreamLemmas::tells_end))]
    fn read(&mut self, buf: &mut [u8]) -> Result<usize, Failed> {
        match self.reader.read(buf) {
            Ok(count) => Ok(count),
            Err(_) => {
                self.faults = self.faults.saturating_add(1);
                Err(Failed)
            }
        }
    }
}

/// A writer as a sink. Its contract as a sink tells nothing of what was taken, since a writer that told nothing
/// may tell again; `write` says by itself what came into the writer, where std tells that.
#[derive(Drop)]
pub struct WriterSink<W> {
    writer: W,
    faults: u64,
}

impl<W> Model for WriterSink<W> {
    ghost use Rattle.gate_outside.specs.Streams.{Stream};

    ghost Value = { Stream W };

    ghost view = { λ s. record { stream = s.writer; faults = s.faults } };
}

impl<W: Write> WriterSink<W> {
    ghost use Rattle.std.specs.Prelude.{◌≡◌};

    /// The sink over a writer, with no fault yet.
    pub fn new(writer: W) -> Self
        ensures { result ≡ record { stream = writer; faults = 0 } }
    {
        WriterSink { writer, faults: 0 }
    }
}

impl<W: Write> Sink for WriterSink<W> {
    ghost use Rattle.std.specs.Prelude.{◌<◌, ◌≤◌, None, length, IfOk};
    ghost use Rattle.std.specs.Io.KnownBytes.{WriteAppends};
    ghost use Rattle.gate_outside.specs.Faults.{HasCause};
    ghost use Rattle.gate_outside.specs.Sink.{Writes};

    ghost taken = { λ _. None };

    ghost fault_count = { λ s. s.faults };

    fn faults(&self) -> u64 {
        self.faults
    }

    fn write(&mut self, piece: &[u8]) -> Result<usize, Failed>
        ensures bound { IfOk result (λ count. count ≤ length piece.now) }
        ensures some { 0 < length piece.now → IfOk result (λ count. 0 < count) }
        ensures bytes { Writes None None piece.now result }
        ensures cause { HasCause self.old.faults self.new.faults result }
        ensures passed_on { WriteAppends (W.contents self.old.stream) (W.contents self.new.stream) result piece.now }
    {
        match self.writer.write(piece) {
            // A writer that takes none of some bytes is stuck.
            Ok(0) if !piece.is_empty() => {}
            Ok(count) => return Ok(count),
            Err(_) => {}
        }
        self.faults = self.faults.saturating_add(1);
        Err(Failed)
    }
}
