use std::alloc::AllocError;
use thiserror::Error;

/// Why a claim table can't be made.
#[derive(Clone, Copy, Debug, Error)]
pub enum ClaimFault {
    #[error("two presets share an address or a NAME")]
    PresetTwice,
    #[error("a preset has the gateway's own address or NAME")]
    OwnTaken,
    #[error(transparent)]
    Memory(#[from(alloc)] AllocError),
}
