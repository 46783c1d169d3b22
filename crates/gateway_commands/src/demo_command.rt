//! The gateway over a made-up input that a seed gives.
ghost use Rattle.std.specs.Prelude.{◌≡◌, ◌≤◌};
ghost use Rattle.gateway_commands.specs.DemoCommand.{DemosBy};
ghost use Rattle.command_line.specs.Statuses.{number};

use capture_stream::send_now;
use command_line::Status;
use demo::demo_line;
use gate_outside::{Failed, Sink};
use std::alloc::Global;

/// Runs a gateway over so many events, at most 1,000,000, of the made-up input of a seed, writes the line that sums up what it emits,
/// and answers a status.
///
/// | Status | Where |
/// |---|---|
/// | 0 | the line was written |
/// | 4 | only where the sink's faults rose; what was written is some front of the line |
/// | 7 | only for want of memory before the first event; nothing was written |
pub fn demo_with<K: Sink>(alloc: Global, seed: u64, count: u32, out: &mut K) -> u8
    requires { count ≤ 1000000 }
    ensures demos { DemosBy seed count (K.taken out.old) (K.taken out.new) (K.fault_count out.old) (K.fault_count out.new) result }
    ensures memory { result ≡ 7 → out.new ≡ out.old }
{
    demo(alloc, seed, count, out).number()
}

/// [`demo_with`], with the status whose number that answers.
#[inline(never)]
pub(crate) fn demo<K: Sink>(alloc: Global, seed: u64, count: u32, out: &mut K) -> Status
    requires { count ≤ 1000000 }
    ensures demos { DemosBy seed count (K.taken out.old) (K.taken out.new) (K.fault_count out.old) (K.fault_count out.new) (number result) }
    ensures memory { number result ≡ 7 → out.new ≡ out.old }
{
    match demo_line(alloc, seed, count) {
        Ok(line) => match send_now(line.as_slice(), out) {
            Ok(()) => Status::Done,
            Err(Failed) => Status::SinkFailed,
        },
        Err(_) => Status::NoMemory,
    }
}
