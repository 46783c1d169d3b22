//! Where a link listens and sends.
#![tactic(auto)]

ghost use Rattle.std.specs.Prelude.{◌≡◌, []};

use arrayvec::ArrayVec;
use sentence_text::Group;

/// How many groups may have an address of their own.
pub const MOST_ROUTES: usize = 8;

/// An address of a network as text, such as `127.0.0.1:60001`.
pub type Address = ArrayVec<u8, 64>;

/// The address of a transmission group.
#[derive(Clone, Drop)]
pub struct Route {
    pub group: Group,
    pub address: Address,
}

impl Default for Route {
    ghost use Rattle.std.specs.Prelude.{◌≡◌, [], codes};

    ghost is_default = { λ route. (route.group ≡ codes "NAVD") × (route.address.items ≡ []) };

    /// Navigational data, with no address.
    fn default() -> Route {
        Route {
            group: Group::default(),
            address: ArrayVec::new(),
        }
    }
}

/// Where what is sent to a group goes.
#[derive(Clone, Drop)]
pub struct Routes {
    /// The groups that have an address of their own.
    pub list: ArrayVec<Route, MOST_ROUTES>,
    /// The address of every other group.
    pub other: Address,
}

impl Routes {
    /// Routes by which all that is sent goes to one address.
    pub fn all_to(address: &Address) -> Routes
        ensures list { result.list.items ≡ [] }
        ensures other { result.other.items ≡ address.now.items }
    {
        let mut other = ArrayVec::new();
        let _fits = other.try_extend_from_slice(address.as_slice());
        Routes {
            list: ArrayVec::new(),
            other,
        }
    }
}
