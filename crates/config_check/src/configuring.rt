//! A command's configuration, loaded from its file.
ghost use Rattle.std.specs.Prelude.{◌≡◌, ◌≤◌, length, IfOk};
ghost use Rattle.config_check.specs.Configuring.{GivesUp, LoadsWhole, SaysWhole, with_end};
ghost use Rattle.command_line.specs.Statuses.{IsEarly, number};

use arrayvec::ArrayVec;
use capture_stream::send_now;
use command_line::Status;
use gate_config::{FaultLine, read_whole};
use gate_outside::{Files, LoadFault, Sink};
use settings::Setup;
use std::alloc::{AllocError, Global};

/// Why there is no configuration.
#[derive(Drop)]
pub enum Unconfigured {
    /// The file can't be read, or has more than 1 MiB.
    Unread,
    /// The file is no accepted configuration: the line of its first fault.
    Refused(FaultLine),
    /// There was no memory for it.
    Memory,
}

/// All that the file of this name configures, in a place of its own: whoever runs with it doesn't have its fourteen kilobytes on the stack.
#[inline(never)]
pub fn load_whole<F: Files>(
    alloc: Global,
    name: &str,
    files: &mut F,
) -> Result<Box<Setup>, Unconfigured>
    ensures { LoadsWhole (F.content files.old name.now) (F.fault_count files.old) (F.fault_count files.new) result }
{
    match files.load(alloc, name) {
        Ok(bytes) => whole_of(alloc, bytes.as_slice()),
        Err(LoadFault::Failed) => Err(Unconfigured::Unread),
        Err(LoadFault::TooLong) => Err(Unconfigured::Unread),
        Err(LoadFault::Memory) => Err(Unconfigured::Memory),
    }
}

// All that these bytes configure.
fn whole_of(alloc: Global, bytes: &[u8]) -> Result<Box<Setup>, Unconfigured>
    ensures { SaysWhole bytes.now result }
{
    match read_whole(alloc, bytes) {
        Ok(setup) => match boxed(alloc, setup) {
            Ok(setup) => Ok(setup),
            Err(AllocError) => Err(Unconfigured::Memory),
        },
        Err(fault) => match fault.line() {
            Some(line) => Err(Unconfigured::Refused(line)),
            None => Err(Unconfigured::Memory),
        },
    }
}

// A setup in a place of its own. What that takes on the stack isn't there while a file is read.
#[inline(never)]
fn boxed(alloc: Global, setup: Setup) -> Result<Box<Setup>, AllocError>
    ensures { IfOk result (λ b. b.value ≡ setup) }
{
    Ok(Box::new(alloc, setup)?)
}

/// The status of a command that has no settings. The line of a fault is offered, and the status stands whatever becomes of it.
pub fn give_up<K: Sink>(why: &Unconfigured, out: &mut K) -> Status
    ensures gives_up { GivesUp why.now (K.taken out.old) (K.taken out.new) (K.fault_count out.old) (K.fault_count out.new) (number result) }
    ensures quiet { IsEarly (number result) → out.new ≡ out.old }
{
    match why {
        Unconfigured::Unread => Status::Unread,
        Unconfigured::Refused(line) => {
            let _ = send_now(ended(line).as_slice(), out);
            Status::Refused
        }
        Unconfigured::Memory => Status::NoMemory,
    }
}

// The line of a fault with its end.
fn ended(line: &FaultLine) -> ArrayVec<u8, 145>
    ensures { result.items ≡ with_end line.now.items }
{
    let mut text = ArrayVec::new();
    let _fits = text.try_extend_from_slice(line.as_slice());
    let _room = text.try_push(b'\n');
    text
}
