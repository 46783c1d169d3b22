//! Replies, as they are written.
ghost use Rattle.std.specs.Prelude.{◌≡◌, ◌^◌, ◌<◌, ◌++◌};
ghost use Rattle.iso_transport.specs.Connection.{cm_of};
ghost use Rattle.iso_transport.specs.Replies.{reply_bytes, pgn_bytes, as_cm, named_pgn};

use crate::connection::{ABORT, CTS, END_ACK};

/// What the sender of a message to this node is told, in a connection management frame. `pgn` is the message's, of 24 bits.
#[derive(Clone, Copy)]
pub enum Reply {
    /// It may send `count` packets, from the packet `next` on (clear to send).
    Cts { count: u8, next: u8, pgn: u32 },
    /// The message of `size` bytes came whole, in so many packets (end of message acknowledgement).
    EndAck { size: u16, packets: u8, pgn: u32 },
    /// The message is given up (connection abort), for one of the reasons of `abort_reason`.
    Abort { reason: u8, pgn: u32 },
}

/// The data bytes of the reply's frame: `read_cm` reads them as the kind and the numbers of the reply.
pub fn write_reply(reply: &Reply) -> [u8; 8]
    requires { named_pgn reply.now < 2 ^ 24 }
    ensures bytes { result ≡ reply_bytes reply.now }
    ensures again { cm_of result ≡ Some (as_cm reply.now) }
{
    match *reply {
        Reply::Cts { count, next, pgn } => reply_frame([CTS, count, next, 255, 255], pgn),
        Reply::EndAck { size, packets, pgn } => {
            let [low, high] = size.to_le_bytes();
            reply_frame([END_ACK, low, high, packets, 255], pgn)
        }
        Reply::Abort { reason, pgn } => reply_frame([ABORT, reason, 255, 255, 255], pgn),
    }
}

// The first five bytes, and the PGN behind them.
fn reply_frame(first: [u8; 5], pgn: u32) -> [u8; 8]
    requires { pgn < 2 ^ 24 }
    ensures { result ≡ first ++ pgn_bytes pgn }
{
    let [a, b, c, d, e] = first;
    let [low, middle, high, _] = pgn.to_le_bytes();
    [a, b, c, d, e, low, middle, high]
}
