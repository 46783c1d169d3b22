//! Connection management frames, as they are read.
ghost use Rattle.std.specs.Prelude.{◌≡◌, ◌≤◌, ◌<◌, ◌^◌, ◌↔◌, IsSome, IfSome, length};
ghost use Rattle.iso_transport.specs.Connection.{size_at, pgn_at, cm_of, IsCm};

/// What a connection management frame (TP.CM) says. `pgn` is the message's, of 24 bits; a size is in bytes.
#[derive(Clone, Copy)]
pub enum Cm {
    /// A request to send a message to one node. No more packets than `limit` may be granted at once.
    Rts {
        size: u16,
        packets: u8,
        limit: u8,
        pgn: u32,
    },
    /// The receiver grants `count` packets, from the packet `next` on.
    Cts {
        count: u8,
        next: u8,
        pgn: u32,
    },
    /// The receiver has the whole message.
    EndAck {
        size: u16,
        packets: u8,
        pgn: u32,
    },
    /// A message to all is announced.
    Bam {
        size: u16,
        packets: u8,
        pgn: u32,
    },
    /// Either side gives the message up.
    Abort {
        reason: u8,
        pgn: u32,
    },
}

/// The control byte of each kind (ISO 11783-3, TP.CM).
pub(crate) const RTS: u8 = 16;

pub(crate) const CTS: u8 = 17;

pub(crate) const END_ACK: u8 = 19;

pub(crate) const BAM: u8 = 32;

pub(crate) const ABORT: u8 = 255;

/// What the data bytes of a connection management frame say. None exactly below 8 bytes, or where the control byte is of no kind.
pub fn read_cm(bytes: &[u8]) -> Option<Cm>
    ensures value { result ≡ cm_of bytes.now }
    ensures some { IsSome result ↔ IsCm bytes.now }
{
    if bytes.len() < 8 {
        return None;
    }
    let pgn = pgn_at(bytes);
    match bytes[0] {
        RTS => Some(Cm::Rts {
            size: size_at(bytes),
            packets: bytes[3],
            limit: bytes[4],
            pgn,
        }),
        CTS => Some(Cm::Cts {
            count: bytes[1],
            next: bytes[2],
            pgn,
        }),
        END_ACK => Some(Cm::EndAck {
            size: size_at(bytes),
            packets: bytes[3],
            pgn,
        }),
        BAM => Some(Cm::Bam {
            size: size_at(bytes),
            packets: bytes[3],
            pgn,
        }),
        ABORT => Some(Cm::Abort {
            reason: bytes[1],
            pgn,
        }),
        _ => None,
    }
}

// The size of the message.
fn size_at(bytes: &[u8]) -> u16
    requires { 8 ≤ length bytes.now }
    ensures { result ≡ size_at bytes.now }
{
    u16::from_le_bytes([bytes[1], bytes[2]])
}

// The message's PGN.
fn pgn_at(bytes: &[u8]) -> u32
    requires { 8 ≤ length bytes.now }
    ensures { result ≡ pgn_at bytes.now }
{
    u32::from_le_bytes([bytes[5], bytes[6], bytes[7], 0])
}
