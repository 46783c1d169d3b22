//! A run of the program as a process makes it: over the words that it was started with, and a reader and a writer of std.
//!
//! What each status then says of the words, of the files, of what the reader had left and of the links and the clock stands in
//! `specs/Program`. A process can't tell what its writer wrote, so nothing is said of that here: the clauses of `run` have it.
ghost use Rattle.std.specs.Prelude.{◌≡◌, ◌≢◌, [], drop, map, string_bytes, IfErr, IfOk, IsErr, IsOkAnd, OnErr};
ghost use Rattle.std.specs.IoError.{error_kind};
ghost use Rattle.std.specs.Vec.Iter.{into_iter_items};
ghost use Rattle.std.specs.declared.io.ErrorKind.TheVariants.{OutOfMemory};
ghost use Rattle.command_line.specs.declared.statuses.Status.TheVariants.{NoCommand, Unread};
ghost use Rattle.command_line.specs.Statuses.{number};
ghost use Rattle.gateway_commands.specs.Program.{RunsOver, live};

use crate::top_call::run;
use command_line::Status;
use gate_outside::{Clock, Files, Link, ReaderSource, WriterSink};
use std::alloc::{AllocError, Global};
use std::env::{Args, Env};
use std::io::{ErrorKind, Read, Write};
use std::{env, io};

// All arguments of the process.
fn all_words(alloc: Global, args: Args) -> Result<Vec<String>, AllocError>
    ensures { IfOk result (λ words. words.items ≡ into_iter_items args) }
{
    let mut args = args;
    let mut words = Vec::new(alloc);
    'words: while let Some(word) = args.next() {
        words.push(word)?;
    }
    Ok(words)
}

// The arguments of the process. Some that are no text stand for none at all: they are no command.
fn words_of(alloc: Global, args: io::Result<Args>) -> Result<Vec<String>, AllocError>
    ensures words { IfOk args (λ args. IfOk result (λ words. words.items ≡ into_iter_items args)) }
    ensures no_text { IfErr args (λ error. error_kind error ≢ OutOfMemory → IsOkAnd result (λ words. words.items ≡ [])) }
    ensures no_memory { IfErr args (λ error. error_kind error ≡ OutOfMemory → IsErr result) }
{
    match args {
        Ok(args) => all_words(alloc, args),
        Err(error) => {
            if error.kind() == ErrorKind::OutOfMemory {
                return Err(AllocError);
            }
            Ok(Vec::new(alloc))
        }
    }
}

// The words behind the program's name, which is the first of all.
fn behind_name(words: &[String]) -> &[String]
    ensures { result.now ≡ drop 1 words.now }
{
    words.get(1..).unwrap_or(&[])
}

// The program over files, a reader, a writer, links and a clock.
fn run_over<F: Files, R: Read + Drop, W: Write + Drop, B: Link, E: Link, C: Clock>(
    alloc: Global,
    words: &[String],
    files: &mut F,
    reader: R,
    writer: W,
    bus: &mut B,
    net: &mut E,
    clock: &mut C,
) -> u8
    ensures { RunsOver (map string_bytes words.now) (F.content files.old) (F.fault_count files.old) (F.fault_count files.new) (R.remaining reader)
        (live (B.traffic bus.old) (B.fault_count bus.old) (E.traffic net.old) (E.fault_count net.old) (C.readings clock.old))
        (live (B.traffic bus.new) (B.fault_count bus.new) (E.traffic net.new) (E.fault_count net.new) (C.readings clock.new)) result }
{
    let mut input = ReaderSource::new(reader);
    let mut out = WriterSink::new(writer);
    run(alloc, words, files, &mut input, &mut out, bus, net, clock)
}

/// The program over the arguments of a process. Where one of them is no text, none can be read, and they are no command.
///
/// The status is that of `run`. An error is want of memory for the words, before the program began.
pub fn run_with<F: Files, R: Read + Drop, W: Write + Drop, B: Link, E: Link, C: Clock>(
    alloc: Global,
    args: io::Result<Args>,
    files: &mut F,
    reader: R,
    writer: W,
    bus: &mut B,
    net: &mut E,
    clock: &mut C,
) -> Result<u8, AllocError>
    ensures runs { IfOk args (λ args. IfOk result (RunsOver (drop 1 (map string_bytes (into_iter_items args)))
        (F.content files.old) (F.fault_count files.old) (F.fault_count files.new) (R.remaining reader)
        (live (B.traffic bus.old) (B.fault_count bus.old) (E.traffic net.old) (E.fault_count net.old) (C.readings clock.old))
        (live (B.traffic bus.new) (B.fault_count bus.new) (E.traffic net.new) (E.fault_count net.new) (C.readings clock.new)))) }
    ensures no_text { IfErr args (λ error. error_kind error ≢ OutOfMemory → IsOkAnd result (λ status. status ≡ number NoCommand)) }
    ensures no_memory { IfErr args (λ error. error_kind error ≡ OutOfMemory → IsErr result) }
{
    let words = words_of(alloc, args)?;
    Ok(run_over(
        alloc,
        behind_name(words.as_slice()),
        files,
        reader,
        writer,
        bus,
        net,
        clock,
    ))
}

/// All words of the process, for a status that is told by them: none for another one, and where one of them is no text.
pub fn words_to_tell<R: Env + Alloc<A = Global>>(
    rt: &R,
    status: &Result<u8, AllocError>,
) -> Vec<String>
    ensures other { IfOk status.now (λ status. status ≢ number NoCommand → status ≢ number Unread → result.items ≡ []) }
    ensures no_memory { OnErr status.now (result.items ≡ []) }
{
    match status.map(Status::of) {
        Ok(Some(Status::NoCommand | Status::Unread)) => words_of(
            rt.alloc(),
            env::args(rt),
        ).unwrap_or(Vec::new(rt.alloc())),
        _ => Vec::new(rt.alloc()),
    }
}
