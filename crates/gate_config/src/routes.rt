//! The keys of each `route`: transmission groups that are sent to an address of their own.
ghost use Rattle.std.specs.Prelude.{◌≡◌, IfOk};
ghost use Rattle.config_document.specs.Places.{place_of};
ghost use Rattle.config_values.specs.Configs.{AreRoutes};
ghost use Rattle.network_routes.specs.Routes.{most_routes};
ghost use Rattle.gate_config.specs.Beside.{IsRouteBeside};
ghost use Rattle.gate_config.specs.Keys.{group_stands, route};
ghost use Rattle.gate_config.specs.Reading.{items_in};

use crate::endpoint::Endpoint;
use crate::items::item_prefix;
use crate::keys::needed_text;
use crate::words::{ADDRESS, GROUP, ROUTE, ROUTE_PREFIX};
use arrayvec::ArrayVec;
use config_document::{ConfigFault, Flaw, Section};
use network_routes::{MOST_ROUTES, Route};
use sentence_text::Group;

pub(crate) const KEYS: [&str; 2] = [GROUP, ADDRESS];

#[tactic(auto, using(crate::proofs::Beside::no_routes, crate::proofs::Beside::one_more_route), unfolding(crate::specs::Keys::route))]
pub(crate) fn route_keys(document: &Section) -> Result<ArrayVec<Route, MOST_ROUTES>, ConfigFault>
    ensures said { result ≡ items_in route most_routes tt (place_of document.now) }
    ensures valid { IfOk result (λ routes. AreRoutes routes.items) }
{
    let values = document.tables_at(ROUTE, MOST_ROUTES)?;
    let mut routes = ArrayVec::new();
    for value in values {
        let prefix = item_prefix(ROUTE_PREFIX, routes.len() + 1);
        let section = Section {
            prefix: prefix.as_slice(),
            table: value.as_table(),
        };
        let route = route(&section, routes.as_slice())?;
        routes.push(route);
    }
    Ok(routes)
}

/// A route beside those before it.
#[tactic(auto, using(crate::proofs::Beside::route_beside), unfolding(crate::specs::Keys::route, crate::specs::Reading::unless))]
fn route(section: &Section, earlier: &[Route]) -> Result<Route, ConfigFault>
    ensures said { result ≡ route.read (tt, earlier.now) (place_of section.now) }
    ensures valid { IfOk result (IsRouteBeside earlier.now) }
{
    let said = needed_text(section, GROUP)?;
    if have_group(earlier, said) {
        return Err(section.fault(GROUP, Flaw::Twice));
    }
    let Endpoint(address) = needed_text(section, ADDRESS)?;
    Ok(Route {
        group: said,
        address,
    })
}

fn have_group(routes: &[Route], group: Group) -> bool
    ensures { result ≡ group_stands routes.now group }
{
    routes.iter().any(|route| route.group == group)
}
