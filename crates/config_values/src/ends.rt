//! Where the two links listen and send.
ghost use Rattle.std.specs.Prelude.{◌↔◌, IsTrue};
ghost use Rattle.config_values.specs.Configs.{AreEnds, AreRoutes};
ghost use Rattle.config_values.specs.Endpoints.{IsEndpoint};

use crate::config::Ends;
use crate::endpoint::is_endpoint;
use crate::lists::{Apart, Valid, are_apart, are_valid};
use arrayvec::ArrayVec;
use network_routes::{Address, MOST_ROUTES, Route};

/// Whether the links can listen and send there.
pub(crate) fn are_ends(ends: &Ends) -> bool
    ensures { IsTrue result ↔ AreEnds ends.now }
{
    is_place(&ends.net_listen)
        && is_place(&ends.net.other)
        && is_place(&ends.bus_listen)
        && is_place(&ends.bus_send)
        && are_routes(&ends.net.list)
}

/// Whether a link can listen or send there.
fn is_place(address: &Address) -> bool
    ensures { IsTrue result ↔ IsEndpoint address.now.items }
{
    is_endpoint(address.as_slice())
}

/// Whether no group has two routes, and each route an address.
fn are_routes(list: &ArrayVec<Route, MOST_ROUTES>) -> bool
    ensures { IsTrue result ↔ AreRoutes list.now.items }
{
    let routes = list.as_slice();
    are_apart(routes) && are_valid(routes)
}

impl Apart for Route {
    ghost use Rattle.std.specs.Prelude.{◌≢◌};

    ghost are_apart = { λ r q. r.group ≢ q.group };

    fn is_apart(&self, other: &Route) -> bool {
        self.group != other.group
    }
}

impl Valid for Route {
    ghost use Rattle.config_values.specs.Endpoints.{IsEndpoint};

    ghost is_valid = { λ r. IsEndpoint r.address.items };

    fn is_valid(&self) -> bool {
        is_place(&self.address)
    }
}
