/// What a datagram begins with: `UdPbC` and NUL.
pub(crate) const HEADER: [u8; 6] = *b"UdPbC\0";
