//! The addresses that messages go to.
ghost use Rattle.std.specs.Prelude.{◌≡◌, IfSome};
ghost use Rattle.live_outside.specs.Destinations.{IsOfRoute};

use arrayvec::ArrayVec;
use network_routes::{MOST_ROUTES, Route, Routes};
use sentence_text::Group;
use std::net::{Ipv4Addr, SocketAddrV4};

/// The address of a transmission group.
#[derive(Clone, Copy)]
struct Destination {
    group: Group,
    address: SocketAddrV4,
}

impl Default for Destination {
    fn default() -> Self {
        Destination {
            group: Group::default(),
            address: SocketAddrV4::new(Ipv4Addr::UNSPECIFIED, 0),
        }
    }
}

/// Where what is sent to a group goes.
#[derive(Drop)]
pub(crate) struct Destinations {
    list: ArrayVec<Destination, MOST_ROUTES>,
    other: SocketAddrV4,
}

// The destination of a route, where its address is an IPv4 address and a port.
fn destination_of(route: &Route) -> Option<Destination>
    ensures { IfSome result (λ to. IsOfRoute route.now to) }
{
    match SocketAddrV4::parse_ascii(route.address.as_slice()) {
        Ok(address) => Some(Destination {
            group: route.group,
            address,
        }),
        Err(_) => None,
    }
}

impl Destinations {
    ghost use Rattle.std.specs.Prelude.{IfSome};
    ghost use Rattle.std.specs.Net.Grammar.{IsSocketV4Text};
    ghost use Rattle.live_outside.specs.Destinations.{AreOfRoutes, GoesTo};

    /// The destinations of these routes, where each is an IPv4 address and a port.
    pub(crate) fn of(routes: &Routes) -> Option<Self>
        ensures list { IfSome result (λ d. AreOfRoutes routes.now.list.items d.list.items) }
        ensures other { IfSome result (λ d. IsSocketV4Text routes.now.other.items d.other) }
    {
        let other = match SocketAddrV4::parse_ascii(routes.other.as_slice()) {
            Ok(other) => other,
            Err(_) => return None,
        };
        let mut list = ArrayVec::new();
        for route in routes.list.as_slice() {
            let _fits = list.try_push(destination_of(route)?);
        }
        Some(Destinations { list, other })
    }

    /// The address of a group: that of its first route, or that of every other group.
    pub(crate) fn address(&self, group: Group) -> SocketAddrV4
        ensures { GoesTo group self.now.list.items self.now.other result }
    {
        for to in self.list.as_slice() {
            if to.group == group {
                return to.address;
            }
        }
        self.other
    }
}
