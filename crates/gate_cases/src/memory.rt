//! What no clause says: that makers and loads find memory, that an adapter moves bytes and fails once where its stream does, and the texts of
//! faults. What the forms in memory give and take is said by their clauses.
use gate_outside::{
    Failed, Files, LoadFault, MemFiles, MemLink, MemSink, QuietFiles, QuietLink, QuietSink,
    ReaderSource, Sink, Source, WriterSink,
};
use std::alloc::{AllocError, Global};
use std::io;
use std::io::{ErrorKind, Read, Write};
use std::test::*;

/// A reader or a writer that fails once, and would then move all that it is asked to.
#[derive(Drop)]
struct FailsOnce {
    failure: Option<ErrorKind>,
}

impl Read for FailsOnce {
    fn read(&mut self, buf: &mut [u8]) -> io::Result<usize> {
        match self.failure.take() {
            Some(kind) => Err(io::Error::from(kind)),
            None => Ok(buf.len()),
        }
    }
}

impl Write for FailsOnce {
    fn write(&mut self, buf: &[u8]) -> io::Result<usize> {
        match self.failure.take() {
            Some(kind) => Err(io::Error::from(kind)),
            None => Ok(buf.len()),
        }
    }

    fn flush(&mut self) -> io::Result<()> {
        Ok(())
    }
}

/// Whether the next read, of at most eight bytes, answers so.
fn reads<S: Source>(source: &mut S, answer: Result<usize, Failed>) -> bool {
    source.read(&mut [0; 8]) == answer
}

/// Whether a write of this piece answers so.
fn writes<K: Sink>(sink: &mut K, piece: &[u8], answer: Result<usize, Failed>) -> bool {
    sink.write(piece) == answer
}

fn reader_gives() -> bool {
    let mut source = ReaderSource::new(b"abc".as_slice());
    let mut buf = [0; 8];
    source.read(&mut buf) == Ok(3)
        && buf.starts_with(b"abc")
        && reads(&mut source, Ok(0))
        && source.faults() == 0
}

fn writer_takes(alloc: Global) -> bool {
    let mut kept = Vec::new(alloc);
    let mut sink = WriterSink::new(&mut kept);
    let taken = writes(&mut sink, b"xyz", Ok(3)) && sink.faults() == 0;
    taken && kept.as_slice() == b"xyz".as_slice()
}

#[test]
fn adapters_pass_bytes_on(rt: HostRuntime) {
    assert!(rt; reader_gives());
    assert!(rt; writer_takes(rt.alloc()));
}

fn source_fails_once(kind: ErrorKind) -> bool {
    let mut source = ReaderSource::new(FailsOnce {
        failure: Some(kind),
    });
    reads(&mut source, Err(Failed)) && reads(&mut source, Ok(8)) && source.faults() == 1
}

fn sink_fails_once(kind: ErrorKind) -> bool {
    let mut sink = WriterSink::new(FailsOnce {
        failure: Some(kind),
    });
    writes(&mut sink, b"x", Err(Failed)) && writes(&mut sink, b"x", Ok(1)) && sink.faults() == 1
}

const KINDS: [ErrorKind; 2] = [ErrorKind::TimedOut, ErrorKind::Interrupted];

#[test]
fn an_adapter_doesnt_try_again_what_failed_once(rt: HostRuntime) {
    for kind in &KINDS {
        assert!(rt; source_fails_once(*kind) && sink_fails_once(*kind));
    }
}

fn sinks_find_memory(alloc: Global) -> Result<bool, AllocError> {
    let scripted = MemSink::of(alloc, u32::MAX, usize::MAX, Vec::new(alloc))?.tells();
    Ok(scripted && QuietSink::of(alloc, u32::MAX, usize::MAX)?.tells())
}

#[test]
fn the_greatest_sinks_find_their_memory(rt: HostRuntime) -> Result<(), Fail> {
    assert!(rt; sinks_find_memory(rt.alloc())?);
    Ok(())
}

fn links_find_memory(alloc: Global) -> Result<bool, AllocError> {
    let fails = Vec::new(alloc);
    let scripted = MemLink::of(
        alloc,
        u32::MAX,
        1 << 24,
        Vec::new(alloc),
        false,
        fails,
        Vec::new(alloc),
    )?;
    Ok(scripted.tells() && QuietLink::of(alloc, u32::MAX, 1 << 24, Vec::new(alloc))?.tells())
}

/// The bytes of the longest file.
fn longest(alloc: Global) -> Result<Vec<u8>, AllocError> {
    let mut bytes = Vec::new(alloc);
    for _ in 0..16_384 {
        bytes.extend_from_slice(&[b'x'; 64])?;
    }
    Ok(bytes)
}

/// Whether the longest file is loaded.
fn finds_memory<F: Files>(files: &mut F, alloc: Global) -> bool {
    match files.load(alloc, "any") {
        Ok(bytes) => bytes.len() == 1 << 20,
        Err(_) => false,
    }
}

#[test]
fn the_greatest_links_and_files_find_their_memory(rt: HostRuntime) -> Result<(), Fail> {
    let alloc = rt.alloc();
    assert!(rt; links_find_memory(alloc)?);
    assert!(rt; finds_memory(&mut MemFiles::of(longest(alloc)?, Vec::new(alloc)), alloc));
    assert!(rt; finds_memory(&mut QuietFiles::of(longest(alloc)?), alloc));
    Ok(())
}

/// Each fault of a load, and its text.
const FAULTS: [(LoadFault, &str); 3] = [
    (LoadFault::Failed, "the file can't be read"),
    (LoadFault::TooLong, "the file has more than 1 MiB"),
    (LoadFault::Memory, "there is no memory for the file's bytes"),
];

fn says(fault: LoadFault, alloc: Global, text: &str) -> Result<bool, AllocError> {
    Ok(fault.to_string(alloc)?.as_str() == text)
}

#[test]
fn faults_of_a_load_say_what_they_are(rt: HostRuntime) -> Result<(), Fail> {
    for (fault, text) in &FAULTS {
        assert!(rt; says(*fault, rt.alloc(), text)?);
    }
    Ok(())
}
