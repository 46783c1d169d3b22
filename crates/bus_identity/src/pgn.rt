//! The parameter groups by which a device says what it is, by their numbers.

/// Which parameter groups a device sends, and which it takes in.
pub const PGN_LISTS: u32 = 126_464;

/// What a device is.
pub const PRODUCT_INFORMATION: u32 = 126_996;
