//! The addresses of the bus (ISO 11783-5).
ghost use Rattle.std.specs.Prelude.{◌≡◌};
ghost use Rattle.n2k_id.specs.Identifier as identifier;

/// How many addresses a device can hold: 0 to 253.
pub const ADDRESSES: usize = 254;

/// The source of a device that can claim no address.
pub const NULL_ADDRESS: u8 = 254;

/// The destination of what is told to all.
pub const ALL: u8 = 255;

/// Whether the address is this device's, where it has one.
pub fn is_own(own: Option<u8>, address: u8) -> bool
    ensures { result ≡ identifier.is_own own address }
{
    match own {
        Some(own) => address == own,
        None => false,
    }
}

/// Whether a frame to this destination is to all or to this device.
pub fn is_to(own: Option<u8>, destination: u8) -> bool
    ensures { result ≡ identifier.is_to own destination }
{
    destination == ALL || is_own(own, destination)
}
