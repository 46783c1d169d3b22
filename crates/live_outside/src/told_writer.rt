//! A stream that is written, and why it can't be.
use std::cell::Cell;
use std::io;
use std::io::{ErrorKind, Write};

/// A writer that notes what kind of error the last write had that failed.
#[derive(Drop)]
pub struct ToldWriter<'a, W> {
    writer: W,
    unwritten: &'a Cell<Option<ErrorKind>>,
}

impl<'a, W> ToldWriter<'a, W> {
    /// The writer over another one. Where errors are noted, none is yet.
    pub fn new(writer: W, unwritten: &'a Cell<Option<ErrorKind>>) -> Self {
        ToldWriter { writer, unwritten }
    }
}

impl<W: Write> Write for ToldWriter<'_, W> {
    ghost contents = { λ w. W.contents w.writer };

    fn write(&mut self, buf: &[u8]) -> io::Result<usize> {
        let written = self.writer.write(buf);
        if let Err(error) = &written {
            self.unwritten.set(Some(error.kind()));
        }
        written
    }

    fn flush(&mut self) -> io::Result<()> {
        self.writer.flush()
    }
}
