//! What is kept of an opener, and what follows from it.
ghost use Rattle.std.specs.Prelude.{◌≡◌, ◌≤◌, ◌<◌, ◌^◌};
ghost use Rattle.iso_transport.specs.Replies.{NamesPgn};
ghost use Rattle.iso_transport.specs.IsoRuns as runs;
ghost use Rattle.iso_transport.specs.Sessions as sessions;

use crate::reply::Reply;

/// How many sizes there are, 0 included: the longest message has 255 packets of 7 bytes.
const SIZES: u64 = 1786;

/// The most packets that are granted at once.
pub(crate) const GREATEST_WINDOW: u8 = 8;

/// How many windows there are, from 1 on.
const WINDOWS: u64 = GREATEST_WINDOW as u64;

/// How long the first packet of a grant may take, in microseconds (ISO 11783-3, the longest wait behind a clear to send).
const GRANTED_GAP: u32 = 1_250_000;

/// How long each other packet may take, in microseconds (ISO 11783-3, the longest gap between packets).
const GAP: u32 = 750_000;

/// A session's message, by its PGN and size, and how many packets its sender is granted at once: 1 to 8, and 1 where nothing
/// is granted.
#[derive(Clone, Copy)]
pub struct Session {
    pub pgn: u32,
    pub size: u16,
    pub window: u8,
}

impl Session {
    // The three in one number: its digits are the window, the size and the PGN.
    pub fn mark(self) -> u64
        requires { 1 ≤ self.window }
        ensures { result ≡ sessions.mark_of self }
    {
        (u64::from(self.pgn) * SIZES + u64::from(self.size)) * WINDOWS + u64::from(self.window - 1)
    }

    // The session of such a number.
    pub fn of_mark(mark: u64) -> Session
        ensures { result ≡ sessions.session_at mark }
    {
        Session {
            pgn: (mark / WINDOWS / SIZES % (1 << 24)) as u32,
            size: (mark / WINDOWS % SIZES) as u16,
            window: (mark % WINDOWS) as u8 + 1,
        }
    }

    // How many packets the message has.
    pub fn packets(self) -> u16
        ensures { result ≡ runs.packets_of self.size }
    {
        self.size.div_ceil(7)
    }

    // What its sender is told after so many packets; the opener counts as packet 0.
    pub fn reply_after(self, addressed: bool, number: u8) -> Option<Reply>
        requires pgn { self.pgn < 2 ^ 24 }
        requires size { self.size ≤ 1785 }
        requires window { 1 ≤ self.window }
        ensures reply { result ≡ sessions.reply_after addressed self number }
        ensures names { NamesPgn result }
    {
        let packets = self.packets() as u8;
        if self.waits_after(addressed, number) {
            return Some(Reply::Cts {
                count: self.window.min(packets - number),
                next: number + 1,
                pgn: self.pgn,
            });
        }
        if addressed && number == packets {
            return Some(Reply::EndAck {
                size: self.size,
                packets,
                pgn: self.pgn,
            });
        }
        None
    }

    // How long the next packet may take after so many.
    pub fn gap_after(self, addressed: bool, number: u8) -> u32
        requires { 1 ≤ self.window }
        ensures { result ≡ runs.gap_after addressed self number }
    {
        if self.waits_after(addressed, number) {
            GRANTED_GAP
        } else {
            GAP
        }
    }

    // Whether its sender waits for a grant after so many packets.
    fn waits_after(self, addressed: bool, number: u8) -> bool
        requires { 1 ≤ self.window }
        ensures { result ≡ runs.waits_after addressed self number }
    {
        addressed && number % self.window == 0 && u16::from(number) < self.packets()
    }
}
