//! The addresses that a link couldn't send to.
use crate::pace::Pace;
use crate::trouble::Trouble;
use arrayvec::ArrayVec;
use network_routes::MOST_ROUTES;
use std::net::{Ipv4Addr, SocketAddrV4};

/// The most addresses of one link: those of the routes, and the one of every other group.
const MOST_ADDRESSES: usize = MOST_ROUTES + 1;

#[derive(Clone, Copy)]
struct Address {
    to: SocketAddrV4,
    trouble: Trouble,
}

impl Default for Address {
    fn default() -> Self {
        Address {
            to: SocketAddrV4::new(Ipv4Addr::UNSPECIFIED, 0),
            trouble: Trouble::default(),
        }
    }
}

/// The addresses that sends failed to, with what is to be said of each.
#[derive(Drop)]
pub(crate) struct Sends {
    failing: ArrayVec<Address, MOST_ADDRESSES>,
    pace: Pace,
}

impl Sends {
    /// No send has failed.
    pub(crate) fn new() -> Self {
        Sends {
            failing: ArrayVec::new(),
            pace: Pace::default(),
        }
    }

    /// Whether a send failed whose end wasn't said.
    pub(crate) fn is_any_failing(&self) -> bool {
        !self.failing.is_empty()
    }

    /// What a line ends with.
    pub(crate) fn end_of_line(&self) -> &'static str {
        self.pace.end_of_line()
    }

    // Where an address stands in the list.
    fn place_of(&self, to: SocketAddrV4) -> Option<usize> {
        self.failing.iter().position(|address| address.to == to)
    }

    /// A send to an address failed. Answers whether that is to be said.
    pub(crate) fn fails(&mut self, to: SocketAddrV4, now_us: u64) -> bool {
        let place = match self.place_of(to) {
            Some(place) => place,
            None => {
                let address = Address {
                    to,
                    trouble: Trouble::default(),
                };
                if self.failing.try_push(address).is_err() {
                    return false;
                }
                self.failing.len() - 1
            }
        };
        match self.failing.get_mut(place) {
            Some(address) => address.trouble.fails(&mut self.pace, now_us),
            None => false,
        }
    }

    /// A send to an address succeeded. Answers how many had failed before, if that is to be said.
    pub(crate) fn ends(&mut self, to: SocketAddrV4, now_us: u64) -> Option<u64> {
        let place = self.place_of(to)?;
        let address = self.failing.get_mut(place)?;
        let failures = address.trouble.ends(&mut self.pace, now_us);
        if !address.trouble.is_there() {
            self.failing.swap_remove(place);
        }
        failures
    }
}
