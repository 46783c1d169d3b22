//! `check`: whether a file is an accepted configuration, or the first thing that is wrong with it.
ghost use Rattle.std.specs.Prelude.{◌≡◌};
ghost use Rattle.config_check.specs.Check.{Accepts, ChecksBy};
ghost use Rattle.command_line.specs.Statuses.{IsEarly, number};

use crate::configuring::{give_up, load_whole};
use capture_stream::send_now;
use command_line::Status;
use gate_outside::{Failed, Files, Sink};
use std::alloc::Global;

/// What is written of an accepted configuration.
const ACCEPTED: &[u8] = b"config ok\n";

// Says that a configuration is accepted, and answers the status.
fn accept<K: Sink>(out: &mut K) -> Status
    ensures { Accepts (K.taken out.old) (K.taken out.new) (K.fault_count out.old) (K.fault_count out.new) (number result) }
{
    match send_now(ACCEPTED, out) {
        Ok(()) => Status::Done,
        Err(Failed) => Status::SinkFailed,
    }
}

/// Says of the file of this name whether it is an accepted configuration, and answers the status.
///
/// | Status | Where |
/// |---|---|
/// | 0 | the file was loaded and is accepted, and that was written |
/// | 3 | exactly where the file was loaded and is refused; the line of its first fault was offered to the sink |
/// | 4 | only where the sink's faults rose |
/// | 6 | only where the files' faults rose, or the file has more than 1 MiB; nothing was written |
/// | 7 | only for want of memory; nothing was written |
#[inline(never)]
pub fn check<F: Files, K: Sink>(alloc: Global, name: &str, files: &mut F, out: &mut K) -> Status
    ensures checks { ChecksBy (F.content files.old name.now) (F.fault_count files.old) (F.fault_count files.new)
        (K.taken out.old) (K.taken out.new) (K.fault_count out.old) (K.fault_count out.new) (number result) }
    ensures quiet { IsEarly (number result) → out.new ≡ out.old }
{
    match load_whole(alloc, name, files) {
        Ok(_accepted) => accept(out),
        Err(why) => give_up(&why, out),
    }
}
