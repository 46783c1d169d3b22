//! How the keys of what the gateway keeps are compared.
ghost use Rattle.gate_model.specs.Orders.{OrdersFast, OrdersIso, OrdersGroups};

use fast_packet::FastKey;
use iso_transport::IsoKey;
use tag_block::GroupKey;

/// The keys of fast packets, of sessions of the transport protocol and of groups of lines are told apart as their parts are, and compared
/// in the order in which they are reported: fast packets by source and PGN, sessions to all before those to the gateway and each kind by
/// source, and groups by source and code.
pub fn keys_are_in_order()
    ensures fast { OrdersFast ⟦<FastKey as Ord>⟧.cmp }
    ensures sessions { OrdersIso ⟦<IsoKey as Ord>⟧.cmp }
    ensures groups { OrdersGroups ⟦<GroupKey as Ord>⟧.cmp }
{}
