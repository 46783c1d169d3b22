//! The output of a run that is told.
use crate::shared::Shared;
use crate::unlisted::Unlisted;
use std::io;
use std::io::Write;

/// A writer of reports. It names each source of the network, once, that the gateway doesn't hear because the configuration
/// lists others alone.
#[derive(Drop)]
pub struct NotedWriter<'a, R, W> {
    writer: W,
    unlisted: Unlisted<'a, R>,
}

impl<'a, R: Eprint, W> NotedWriter<'a, R, W> {
    /// The writer over another one.
    pub fn new(rt: &'a R, writer: W, shared: &'a Shared) -> Self {
        NotedWriter {
            writer,
            unlisted: Unlisted::new(rt, shared),
        }
    }
}

impl<R: Eprint, W: Write> Write for NotedWriter<'_, R, W> {
    ghost contents = { λ w. W.contents w.writer };

    fn write(&mut self, buf: &[u8]) -> io::Result<usize> {
        let written = self.writer.write(buf);
        self.unlisted.reported(buf);
        written
    }

    fn flush(&mut self) -> io::Result<()> {
        self.writer.flush()
    }
}
