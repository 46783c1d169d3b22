//! The parameter groups by which devices manage the network, by their numbers.

/// A device claims an address, or says that it can claim none (ISO 11783-5).
pub const ADDRESS_CLAIMED: u32 = 60_928;

/// A device asks for a parameter group (ISO 11783-3).
pub const REQUEST: u32 = 59_904;

/// A device answers that it doesn't have what was asked for (ISO 11783-3).
pub const ACKNOWLEDGEMENT: u32 = 59_392;

/// The transport protocol: management of a connection (ISO 11783-3).
pub const CONNECTION_MANAGEMENT: u32 = 60_416;

/// The transport protocol: transfer of data (ISO 11783-3).
pub const DATA_TRANSFER: u32 = 60_160;

/// A device tells another to go to an address (ISO 11783-5).
pub const COMMANDED_ADDRESS: u32 = 65_240;
