//! A UDP socket as a link uses it.
ghost use Rattle.std.specs.Prelude.{◌≡◌, Ok, IsErr};
ghost use Rattle.gate_outside.specs.declared.link.Arrival.{Arrival};
ghost use Rattle.gate_outside.specs.Link.{Fits};
ghost use Rattle.live_outside.specs.Failures.{IsSilence};

use crate::destinations::Destinations;
use gate_outside::{Arrival, Failed, LARGEST_ARRIVAL};
use network_routes::Routes;
use sentence_text::Group;
use std::io;
use std::io::ErrorKind;
use std::net::{Net, SocketAddrV4, UdpSocket};
use std::time::Duration;

/// How long a receive waits at most, in milliseconds.
pub(crate) const LONGEST_WAIT_MS: u64 = 4;

/// How many networks a multicast datagram crosses: none but the ship's own.
const MULTICAST_TTL: u32 = 1;

/// Why a call of a link failed.
#[derive(Clone, Copy)]
pub struct Failure {
    /// Where a send was to go; None of a receive.
    pub to: Option<SocketAddrV4>,
    /// What the system said. A datagram that was sent in part is `WriteZero`.
    pub kind: ErrorKind,
}

/// A socket that listens, and where it sends.
#[derive(Drop)]
pub(crate) struct Socket {
    socket: UdpSocket,
    destinations: Destinations,
    waits: bool,
    failure: Option<Failure>,
}

// A socket that listens at an address, and whose receives wait.
fn bound<R: Net>(rt: &R, listen: SocketAddrV4) -> io::Result<UdpSocket> {
    let socket = UdpSocket::bind(rt, listen)?;
    socket.set_read_timeout(Some(Duration::from_millis(LONGEST_WAIT_MS)))?;
    socket.set_broadcast(true)?;
    socket.set_multicast_ttl_v4(MULTICAST_TTL)?;
    socket.set_multicast_loop_v4(true)?;
    Ok(socket)
}

// What a receive is that gave no datagram, for this reason: silence, or a failure.
fn without_arrival(kind: ErrorKind) -> Result<Arrival, Failed>
    ensures silence { IsSilence kind → result ≡ Ok Arrival.Nothing }
    ensures failure { (IsSilence kind → ⊥) → IsErr result }
{
    match kind {
        ErrorKind::WouldBlock | ErrorKind::TimedOut | ErrorKind::Interrupted => {
            Ok(Arrival::Nothing)
        }
        _ => Err(Failed),
    }
}

impl Socket {
    /// A socket that listens at an address and sends by these routes, where each address is an IPv4
    /// address and a port (`InvalidInput` where one isn't) and the system lends the one to listen at.
    pub(crate) fn open<R: Net>(rt: &R, listen: &[u8], routes: &Routes) -> Result<Self, ErrorKind> {
        let destinations = Destinations::of(routes).ok_or(ErrorKind::InvalidInput)?;
        let listen = match SocketAddrV4::parse_ascii(listen) {
            Ok(listen) => listen,
            Err(_) => return Err(ErrorKind::InvalidInput),
        };
        match bound(rt, listen) {
            Ok(socket) => Ok(Socket {
                socket,
                destinations,
                waits: true,
                failure: None,
            }),
            Err(error) => Err(error.kind()),
        }
    }

    /// Why the last call failed that did.
    pub(crate) fn failure(&self) -> Option<Failure> {
        self.failure
    }

    /// The address that a group is sent to.
    pub(crate) fn destination(&self, group: Group) -> SocketAddrV4 {
        self.destinations.address(group)
    }

    // Notes why a call fails: a receive, or a send to an address.
    fn fail(&mut self, to: Option<SocketAddrV4>, kind: ErrorKind) -> Failed {
        self.failure = Some(Failure { to, kind });
        Failed
    }

    // Makes the next call wait or not. A socket keeps its way, so that a busy one isn't set each turn.
    fn set_waiting(&mut self, waits: bool) -> Result<(), ErrorKind> {
        if self.waits != waits {
            match self.socket.set_nonblocking(!waits) {
                Ok(()) => self.waits = waits,
                Err(error) => return Err(error.kind()),
            }
        }
        Ok(())
    }

    /// The next datagram, of which the first 1500 bytes are taken.
    pub(crate) fn receive(
        &mut self,
        buf: &mut [u8; LARGEST_ARRIVAL],
        waits: bool,
    ) -> Result<Arrival, Failed>
        ensures { Fits buf.new result }
    {
        if let Err(kind) = self.set_waiting(waits) {
            return Err(self.fail(None, kind));
        }
        match self.socket.recv_from(buf) {
            Ok((count, _)) => Ok(Arrival::Bytes(count)),
            Err(error) => {
                let outcome = without_arrival(error.kind());
                if outcome.is_err() {
                    self.failure = Some(Failure {
                        to: None,
                        kind: error.kind(),
                    });
                }
                outcome
            }
        }
    }

    /// Sends a datagram to the address of a group. A send that would wait fails.
    pub(crate) fn send(&mut self, group: Group, bytes: &[u8]) -> Result<(), Failed> {
        let to = self.destinations.address(group);
        if let Err(kind) = self.set_waiting(false) {
            return Err(self.fail(Some(to), kind));
        }
        match self.socket.send_to(bytes, to) {
            Ok(count) if count == bytes.len() => Ok(()),
            Ok(_) => Err(self.fail(Some(to), ErrorKind::WriteZero)),
            Err(error) => Err(self.fail(Some(to), error.kind())),
        }
    }
}
