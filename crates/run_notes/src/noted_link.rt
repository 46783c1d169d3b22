//! A link of a run that is told.
use crate::begin::say_attached;
use crate::link_notes::LinkNotes;
use crate::shared::{Shared, Side};
use gate_outside::{Arrival, Failed, LARGEST_ARRIVAL, Link};
use live_outside::UdpLink;
use network_routes::Routes;
use sentence_text::Group;
use std::fs::Files;
use std::net::Net;
use std::time::Clock;

/// A link over UDP that says on standard error where it listens and sends, the first failure of a send to each address and
/// of a receive, and the end of each with how many there were.
#[derive(Drop)]
pub struct NotedLink<'a, R> {
    rt: &'a R,
    link: UdpLink<'a, R>,
    side: Side,
    shared: &'a Shared,
    notes: LinkNotes<'a, R>,
}

impl<'a, R: Net + Clock + Eprint + Files> NotedLink<'a, R> {
    /// The link, of which nothing was said yet.
    pub fn new(rt: &'a R, link: UdpLink<'a, R>, side: Side, shared: &'a Shared) -> Self {
        NotedLink {
            rt,
            link,
            side,
            shared,
            notes: LinkNotes::new(rt, side, shared),
        }
    }

    /// The link itself.
    pub fn link(&self) -> &UdpLink<'a, R> {
        &self.link
    }
}

impl<'a, R: Net + Clock + Eprint + Files> Link for NotedLink<'a, R> {
    ghost use Rattle.std.specs.Prelude.{None};

    ghost traffic = { λ _. None };

    ghost fault_count = { λ l. l.link };

    fn faults(&self) -> u64 {
        self.link.faults()
    }

    fn attach(&mut self, listen: &[u8], routes: &Routes) -> Result<(), Failed> {
        let attached = self.link.attach(listen, routes);
        if attached.is_ok() {
            say_attached(self.rt, self.side, listen, routes, self.shared);
        }
        attached
    }

    fn receive(&mut self, buf: &mut [u8; LARGEST_ARRIVAL]) -> Result<Arrival, Failed> {
        let arrival = self.link.receive(buf);
        match &arrival {
            Ok(Arrival::Bytes(count)) => self.notes.arrived(buf, *count),
            Ok(Arrival::Nothing) => self.notes.received(),
            Err(Failed) => self.notes.receive_failed(self.link.failure()),
        }
        arrival
    }

    fn send(&mut self, group: Group, bytes: &[u8]) -> Result<(), Failed> {
        let sent = self.link.send(group, bytes);
        match sent {
            Ok(()) if self.notes.awaits_a_send() => {
                if let Some(to) = self.link.destination(group) {
                    self.notes.sent(to);
                }
            }
            Ok(()) => {}
            Err(Failed) => self.notes.send_failed(self.link.failure()),
        }
        sent
    }
}
