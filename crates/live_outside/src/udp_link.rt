//! A link over UDP.
use crate::activity::{Activity, Patience, Side};
use crate::socket::{Failure, LONGEST_WAIT_MS, Socket};
use gate_outside::{Arrival, Failed, LARGEST_ARRIVAL, Link};
use network_routes::{Address, Routes};
use sentence_text::Group;
use std::io::ErrorKind;
use std::marker::Model;
use std::net::{Net, SocketAddrV4};
use std::thread;
use std::time::{Clock, Duration};

/// How long a nap takes, in microseconds.
const NAP_US: u64 = 500;

/// Why a link couldn't be attached.
#[derive(Drop)]
pub struct Unattached {
    /// The address that it was to listen at.
    pub listen: Address,
    /// What the system said, or that an address isn't an IPv4 address and a port (`InvalidInput`).
    pub kind: ErrorKind,
}

/// A link over UDP. Addresses are IPv4 addresses with a port, as `192.168.0.7:60001`.
///
/// A receive doesn't wait while the other link of the pair had an arrival at its last receive, nor where the
/// other spoke later than this one. Else it waits: for a nap of 0.5 milliseconds where the other spoke
/// lately, and up to 4 milliseconds, which the system rounds up to its own tick, where the other has long been
/// silent. One that fails waits as long, so that a link that is down doesn't spin while both are silent.
/// Of a datagram of more than 1500 bytes the first 1500 are taken; one of no byte is an arrival as any other.
/// The system holds what comes meanwhile, up to its own limit.
///
/// A send never waits. Broadcast addresses may be sent to. A multicast datagram crosses no router
/// (its time to live is 1), and programs of the same computer that joined its group receive it too.
/// Nobody listening at an address is no failure.
#[derive(Drop)]
pub struct UdpLink<'a, R> {
    rt: &'a R,
    side: Side<'a>,
    socket: Option<Socket>,
    faults: u64,
    unattached: Option<Unattached>,
}

impl<'a, R> Model for UdpLink<'a, R> {
    ghost use Rattle.std.specs.Prelude.{ℕ};

    ghost Value = { ℕ };

    ghost view = { λ l. l.faults };
}

impl<'a, R: Net + Clock> UdpLink<'a, R> {
    ghost use Rattle.std.specs.Prelude.{◌≡◌};

    /// The bus link and the net link of a program, which listen nowhere yet. They share who is busy.
    pub fn pair(rt: &'a R, activity: &'a Activity) -> (Self, Self)
        ensures bus { result.0 ≡ 0 }
        ensures net { result.1 ≡ 0 }
    {
        let (bus, net) = activity.sides();
        let bus = UdpLink {
            rt,
            side: bus,
            socket: None,
            faults: 0,
            unattached: None,
        };
        let net = UdpLink {
            rt,
            side: net,
            socket: None,
            faults: 0,
            unattached: None,
        };
        (bus, net)
    }

    /// Why the last call of `attach` failed, if one did.
    pub fn unattached(&self) -> Option<&Unattached> {
        self.unattached.as_ref()
    }

    /// Why the last receive or send failed that did. None before the link is attached.
    pub fn failure(&self) -> Option<Failure> {
        match &self.socket {
            Some(socket) => socket.failure(),
            None => None,
        }
    }

    /// The address that a group is sent to. None before the link is attached.
    pub fn destination(&self, group: Group) -> Option<SocketAddrV4> {
        match &self.socket {
            Some(socket) => Some(socket.destination(group)),
            None => None,
        }
    }
}

// How long to sleep after a receive of this patience. One that waited in its socket has waited.
fn pause_after(patience: Patience, arrival: &Result<Arrival, Failed>) -> Option<Duration> {
    match (patience, arrival) {
        (Patience::Nap, Ok(Arrival::Nothing) | Err(Failed)) => Some(Duration::from_micros(NAP_US)),
        (Patience::Wait, Err(Failed)) => Some(Duration::from_millis(LONGEST_WAIT_MS)),
        _ => None,
    }
}

impl<'a, R: Net + Clock> Link for UdpLink<'a, R> {
    ghost use Rattle.std.specs.Prelude.{None};

    ghost traffic = { λ _. None };

    ghost fault_count = { λ l. l };

    fn faults(&self) -> u64 {
        self.faults
    }

    fn attach(&mut self, listen: &[u8], routes: &Routes) -> Result<(), Failed> {
        match Socket::open(self.rt, listen, routes) {
            Ok(socket) => {
                self.socket = Some(socket);
                Ok(())
            }
            Err(kind) => {
                let mut address = Address::new();
                let _fits = address.try_extend_from_slice(listen);
                self.unattached = Some(Unattached {
                    listen: address,
                    kind,
                });
                self.faults = self.faults.saturating_add(1);
                Err(Failed)
            }
        }
    }

    fn receive(&mut self, buf: &mut [u8; LARGEST_ARRIVAL]) -> Result<Arrival, Failed> {
        let patience = self.side.patience();
        let arrival = match &mut self.socket {
            Some(socket) => socket.receive(buf, patience == Patience::Wait),
            None => Err(Failed),
        };
        self.side.note(matches!(&arrival, Ok(Arrival::Bytes(_))));
        if arrival.is_err() {
            self.faults = self.faults.saturating_add(1);
        }
        if let Some(pause) = pause_after(patience, &arrival) {
            thread::sleep(self.rt, pause);
        }
        arrival
    }

    fn send(&mut self, group: Group, bytes: &[u8]) -> Result<(), Failed> {
        let sent = match &mut self.socket {
            Some(socket) => socket.send(group, bytes),
            None => Err(Failed),
        };
        if sent.is_err() {
            self.faults = self.faults.saturating_add(1);
        }
        sent
    }
}
