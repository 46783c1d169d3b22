/// Why a datagram isn't read at all.
#[derive(Clone, Copy)]
pub enum DatagramFault {
    /// It doesn't begin with `UdPbC` and NUL. The place is the first byte that differs, or the length.
    Header(usize),
    /// It has more than 1472 bytes.
    Long,
}
