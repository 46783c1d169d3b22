//! A copy of where a link listens and sends.
ghost use Rattle.std.specs.Prelude.{◌≡◌, ◌≤◌, length, map};
ghost use Rattle.gate_outside.specs.Link.{longest_address, route_of};

use crate::{Address, Route, Routes};
use arrayvec::ArrayVec;
use network_routes::MOST_ROUTES;
use std::marker::Model;

/// Where a link listens and sends.
#[derive(Drop)]
pub(crate) struct Attached {
    listen: Address,
    routes: Routes,
}

impl Model for Attached {
    ghost use Rattle.gate_outside.specs.Link.{Attachment, attachment};

    ghost Value = { Attachment };

    ghost view = { λ a. attachment a.listen.items a.routes };
}

// A copy of an address.
fn copy_of(address: &[u8]) -> Address
    requires { length address.now ≤ longest_address }
    ensures { result.items ≡ address.now }
{
    let mut copy = ArrayVec::new();
    let _fits = copy.try_extend_from_slice(address);
    copy
}

// A copy of a list of routes.
fn routes_like(list: &ArrayVec<Route, MOST_ROUTES>) -> ArrayVec<Route, MOST_ROUTES>
    ensures { map route_of result.items ≡ map route_of list.now.items }
{
    let mut copy = ArrayVec::new();
    for route in list.as_slice() {
        let address = copy_of(route.address.as_slice());
        let _fits = copy.try_push(Route {
            group: route.group,
            address,
        });
    }
    copy
}

impl Attached {
    ghost use Rattle.std.specs.Prelude.{◌≡◌, ◌≤◌, length};
    ghost use Rattle.gate_outside.specs.Link.{longest_address, attachment};

    pub(crate) fn at(listen: &[u8], routes: &Routes) -> Self
        requires { length listen.now ≤ longest_address }
        ensures { result ≡ attachment listen.now routes.now }
    {
        Attached {
            listen: copy_of(listen),
            routes: Routes {
                list: routes_like(&routes.list),
                other: copy_of(routes.other.as_slice()),
            },
        }
    }
}
