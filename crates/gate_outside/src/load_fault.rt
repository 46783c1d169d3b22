//! Why a file wasn't loaded.
use std::alloc::{AllocError, AllocFailed};
use thiserror::Error;

/// Why a file wasn't loaded.
#[derive(Clone, Copy, Debug, Error)]
pub enum LoadFault {
    /// The file couldn't be read. It is answered only where the object's count of faults rose in that
    /// call.
    #[error("the file can't be read")]
    Failed,
    /// The file has more than 1 MiB.
    #[error("the file has more than 1 MiB")]
    TooLong,
    /// There was no memory for its bytes.
    #[error("there is no memory for the file's bytes")]
    Memory,
}
