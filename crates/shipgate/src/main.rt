//! A gateway between an NMEA 2000 bus and the Ethernet of a ship's bridge.
//!
//! `run` is the program: it takes the words of the command line and the outside as traits, and its
//! contract says what each status means for the bytes that were read and written. `main` hands it
//! the real outside.
#![tactic(auto)]

ghost use Rattle.std.specs.Prelude.{◌≡◌, IfOk, OnErr};
ghost use Rattle.std.specs.Process.{exit_status};

use command_line::Status;
pub use gateway_commands::{
    Bridge, Command, LineCommand, Settings, demo_with, replay_with, run, serve_turns, stream,
};
use gateway_commands::{run_with, words_to_tell};
use live_outside::{Activity, DiskFiles, SystemClock, ToldWriter, UdpLink};
use run_notes::{Kept, NotedClock, NotedFiles, NotedLink, NotedWriter, Shared, Side, explain_run};
use std::alloc::AllocError;
use std::cell::Cell;
use std::env;
use std::process::ExitCode;

// The exit code of a status, or of want of memory before the program began.
fn exit_code(status: Result<u8, AllocError>) -> ExitCode
    ensures status { IfOk status (λ status. exit_status result ≡ status) }
    ensures no_memory { OnErr status (exit_status result ≡ 7) }
{
    match status {
        Ok(status) => ExitCode::from(status),
        Err(AllocError) => ExitCode::from(Status::NoMemory.number()),
    }
}

fn main(rt: HostRuntime) -> ExitCode {
    let shared = Shared::new();
    let mut files = NotedFiles::new(DiskFiles::new(&rt), &shared);
    let activity = Activity::new();
    let (bus, net) = UdpLink::pair(&rt, &activity);
    let mut bus = NotedLink::new(&rt, bus, Side::Bus, &shared);
    let mut net = NotedLink::new(&rt, net, Side::Net, &shared);
    let mut clock = NotedClock::new(SystemClock::new(&rt), &shared);
    let unwritten = Cell::new(None);
    let status = run_with(
        rt.alloc(),
        env::args(&rt),
        &mut files,
        rt.stdin(),
        NotedWriter::new(&rt, ToldWriter::new(rt.stdout(), &unwritten), &shared),
        &mut bus,
        &mut net,
        &mut clock,
    );
    let kept = Kept {
        words: words_to_tell(&rt, &status),
        unread: files.files().unread(),
        unwritten: unwritten.get(),
        bus: bus.link().unattached(),
        net: net.link().unattached(),
    };
    explain_run(&rt, &status, &kept);
    shared.say_end(&rt, &status, unwritten.get());
    exit_code(status)
}
