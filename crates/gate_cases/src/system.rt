//! What no clause says: that time passes, and why a call failed. That datagrams move, and who waits how long, is tried by the program itself.
ghost use Rattle.std.specs.Prelude.{◌≤◌, length};
ghost use Rattle.gate_outside.specs.Link.{longest_address};

use gate_outside::{Clock, Failed, Files, LARGEST_ARRIVAL, Link, LoadFault};
use live_outside::{Activity, DiskFiles, SystemClock, ToldWriter, UdpLink};
use network_routes::{Address, Routes};
use std::alloc::Global;
use std::cell::Cell;
use std::io;
use std::io::{ErrorKind, Write};
use std::test::*;
use std::time::Duration;

// Files that can't be loaded, and why.
const UNREAD: [(&str, LoadFault, ErrorKind); 3] = [
    (
        "/nowhere/shipgate.toml",
        LoadFault::Failed,
        ErrorKind::NotFound,
    ),
    ("/dev", LoadFault::Failed, ErrorKind::IsADirectory),
    ("/dev/zero", LoadFault::TooLong, ErrorKind::FileTooLarge),
];

// Whether a load fails so.
fn fails(
    files: &mut DiskFiles<'_, HostRuntime>,
    alloc: Global,
    name: &str,
    fault: LoadFault,
    kind: ErrorKind,
) -> bool {
    match files.load(alloc, name) {
        Err(found) => found == fault && files.unread() == Some(kind),
        Ok(_) => false,
    }
}

#[test]
fn a_load_that_fails_tells_why(rt: HostRuntime) -> Result<(), Fail> {
    let mut files = DiskFiles::new(&rt);
    for (name, fault, kind) in &UNREAD {
        assert!(rt; fails(&mut files, rt.alloc(), name, *fault, *kind));
    }
    assert!(rt; files.faults() == 2);
    Ok(())
}

fn is_empty(rt: &HostRuntime, name: &str) -> bool {
    match DiskFiles::new(rt).load(rt.alloc(), name) {
        Ok(bytes) => bytes.is_empty(),
        Err(_) => false,
    }
}

#[test]
fn a_file_may_be_empty(rt: HostRuntime) {
    assert!(rt; is_empty(&rt, "/dev/null"));
}

// A pipe at whose other end nobody reads.
#[derive(Drop)]
struct ClosedPipe;

impl Write for ClosedPipe {
    fn write(&mut self, _buf: &[u8]) -> io::Result<usize> {
        Err(io::Error::from(ErrorKind::BrokenPipe))
    }

    fn flush(&mut self) -> io::Result<()> {
        Ok(())
    }
}

fn writes_untold() -> bool {
    let unwritten = Cell::new(None);
    let mut full = [0; 4];
    let written = ToldWriter::new(&mut full[..], &unwritten).write(b"text");
    matches!(&written, Ok(4)) && unwritten.get().is_none()
}

fn tells_why() -> bool {
    let unwritten = Cell::new(None);
    let failed = ToldWriter::new(ClosedPipe, &unwritten).write(b"text");
    failed.is_err() && matches!(unwritten.get(), Some(ErrorKind::BrokenPipe))
}

#[test]
fn a_writer_tells_why_it_failed(rt: HostRuntime) {
    assert!(rt; writes_untold());
    assert!(rt; tells_why());
}

// Whether a link tells that it couldn't be attached there, for this reason.
fn tells(link: &UdpLink<'_, HostRuntime>, listen: &[u8], kind: ErrorKind) -> bool {
    match link.unattached() {
        Some(why) => why.listen.as_slice() == listen && why.kind == kind,
        None => false,
    }
}

fn routes() -> Routes {
    let mut address = Address::new();
    let _fits = address.try_extend_from_slice(b"127.0.0.1:9");
    Routes::all_to(&address)
}

// Whether an attach there fails, for this reason.
fn is_refused(link: &mut UdpLink<'_, HostRuntime>, listen: &[u8], kind: ErrorKind) -> bool
    requires { length listen.now ≤ longest_address }
{
    link.attach(listen, &routes()).is_err() && tells(link, listen, kind)
}

fn listens_nowhere(rt: &HostRuntime) -> bool {
    let activity = Activity::new();
    let (mut link, _net) = UdpLink::pair(rt, &activity);
    is_refused(&mut link, b"localhost:0", ErrorKind::InvalidInput)
        && is_refused(&mut link, b"192.0.2.1:0", ErrorKind::AddrNotAvailable)
        && link.receive(&mut [0; LARGEST_ARRIVAL]) == Err(Failed)
        && link.faults() == 3
}

#[test]
fn a_link_that_listens_nowhere_fails(rt: HostRuntime) {
    assert!(rt; listens_nowhere(&rt));
}

// 2020-01-01T00:00:00Z, in microseconds.
const LONG_AGO: u64 = 1_577_836_800_000_000;

fn passes(rt: &HostRuntime) -> bool {
    let mut clock = SystemClock::new(rt);
    let first = clock.now();
    std::thread::sleep(rt, Duration::from_millis(2));
    clock.now() >= first.saturating_add(2000) && first > LONG_AGO
}

#[test]
fn time_passes(rt: HostRuntime) {
    assert!(rt; passes(&rt));
}
