//! `replay`: the gateway of a configuration over a capture.
ghost use Rattle.std.specs.Prelude.{◌≡◌};
ghost use Rattle.gateway_commands.specs.ReplayCommand.{ReplaysBy};
ghost use Rattle.command_line.specs.Statuses.{IsEarly, number};

use crate::replay::replay_setup;
use command_line::Status;
use config_check::{give_up, load_whole};
use gate_outside::{Files, Sink, Source};
use std::alloc::Global;

/// Runs a gateway of the configuration in the file of this name over a capture, and answers the status.
#[inline(never)]
pub(crate) fn replay<F: Files, S: Source, K: Sink>(
    alloc: Global,
    name: &str,
    files: &mut F,
    input: &mut S,
    out: &mut K,
) -> Status
    ensures replays { ReplaysBy (F.content files.old name.now) (F.fault_count files.old) (F.fault_count files.new)
        (S.left input.old) (S.left input.new) (S.fault_count input.old) (S.fault_count input.new)
        (K.taken out.old) (K.taken out.new) (K.fault_count out.old) (K.fault_count out.new) (number result) }
    ensures refused { number result ≡ 3 → input.new ≡ input.old }
    ensures quiet { IsEarly (number result) → (input.new ≡ input.old) × (out.new ≡ out.old) }
{
    match load_whole(alloc, name, files) {
        Ok(setup) => replay_setup(alloc, &*setup, input, out),
        Err(why) => give_up(&why, out),
    }
}
