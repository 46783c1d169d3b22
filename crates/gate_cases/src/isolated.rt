//! What no clause says: that memory is found for both lists.
ghost use Rattle.n2k_id.specs.Frame.{IsFrame};
ghost use Rattle.isolation.specs.Runs.{IsFrameEvent};

use crate::setup::started;
use gate_core::{Done, Gateway};
use isolation::FrameEvent;
use isolation::laws::same_from;
use n2k_id::Frame;
use std::alloc::Global;
use std::test::Fail;

/// The heading 90.0 from an address.
fn heading(moment: u64, source: u8) -> FrameEvent
    ensures { IsFrameEvent result }
{
    FrameEvent {
        moment,
        frame: Frame::of(
            0x09F1_1200 | u32::from(source),
            &0x005C_3DFF_7FFF_7FFC_u64.to_be_bytes(),
        ),
    }
}

/// Whether a heading of the device at 23 is all that was said.
fn is_heading(told: &[Done]) -> bool {
    match told {
        [done] => done.source == 23 && done.pgn == 127_250,
        _ => false,
    }
}

/// Whether the heading is all that the device at 23 says, alone and beside that of the device at 24.
fn says_the_same(alloc: Global, left: &mut Gateway, right: &mut Gateway) -> Result<bool, Fail> {
    let alone = [heading(1_000_000, 23)];
    let beside = [heading(1_000_000, 23), heading(1_000_500, 24)];
    let (alone, beside) = same_from(alloc, left, right, 23, &alone, &beside)?;
    Ok(is_heading(alone.as_slice()) && is_heading(beside.as_slice()))
}

// A gateway has many parts: whoever holds one lets it go by one call, on a single way out.
fn beside_another(alloc: Global, left: &mut Gateway) -> Result<bool, Fail> {
    let mut right = started(alloc, 0)?;
    let same = says_the_same(alloc, left, &mut right);
    drop(right);
    same
}

fn finds_memory(alloc: Global) -> Result<bool, Fail> {
    let mut left = started(alloc, 0)?;
    let same = beside_another(alloc, &mut left);
    drop(left);
    same
}

#[test]
fn a_device_says_the_same_beside_another(rt: HostRuntime) -> Result<(), Fail> {
    assert!(rt; finds_memory(rt.alloc())?);
    Ok(())
}
