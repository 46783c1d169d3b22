//! Why a connection is aborted (ISO 11783-3, connection abort reasons).

/// The node is already in connection managed sessions, and can't support another.
pub const CANNOT_SUPPORT_ANOTHER: u8 = 1;

/// System resources were needed for another task. It is also said of a frame that doesn't fit its session, and of a size that no
/// message has.
pub const RESOURCES_NEEDED: u8 = 2;

/// A timeout occurred.
pub const TIMEOUT: u8 = 3;
