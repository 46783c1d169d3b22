//! The law of isolation, over two gateways.
ghost use Rattle.std.specs.Prelude.{All, IfErr, IfOk};
ghost use Rattle.isolation.specs.Isolated.{TellTheSame};
ghost use Rattle.isolation.specs.Runs.{IsCut, IsFrameEvent, Runs};

use crate::running::{FrameEvent, run};
use gate_core::{Done, Gateway};
use std::alloc::{AllocError, Global};

/// Steps one gateway through `lefts` and the other through `rights`, and gives of each the messages that those complete from the
/// address, in order. Where the claims, the commands and the frames from the address are the same on both sides, at the same moments,
/// and no opener from it is refused for want of room, both lists are the same: nothing else that either hears changes what a device says.
///
/// # Errors
///
/// Want of memory: each gateway has taken some first events of its list then.
pub fn same_from(
    alloc: Global,
    left: &mut Gateway,
    right: &mut Gateway,
    address: u8,
    lefts: &[FrameEvent],
    rights: &[FrameEvent],
) -> Result<(Vec<Done>, Vec<Done>), AllocError>
    requires lefts { All IsFrameEvent lefts.now }
    requires rights { All IsFrameEvent rights.now }
    ensures runs { IfOk result (λ told. Runs left.old lefts.now address left.new told.0.items
        × Runs right.old rights.now address right.new told.1.items) }
    ensures cut { IfErr result (λ _. IsCut left.old lefts.now left.new × IsCut right.old rights.now right.new) }
    ensures isolated { IfOk result (λ told. TellTheSame left.old right.old lefts.now rights.now address told.0.items told.1.items) }
{
    let from_left = match run(alloc, left, address, lefts) {
        Ok(told) => told,
        Err(error) => return Err(error),
    };
    match run(alloc, right, address, rights) {
        Ok(from_right) => Ok((from_left, from_right)),
        Err(error) => Err(error),
    }
}
