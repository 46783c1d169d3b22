//! What is noted of senders, and forgotten of addresses that change hands.
ghost use Rattle.std.specs.Prelude.{◌≡◌};
ghost use Rattle.claim_table.specs.Claims.{places};
ghost use Rattle.bus_listener.specs.Noting.{forgotten_at, forgotten_of, has_place};

use gate_core::Gateway;
use n2k_id::address::ADDRESSES;
use source_choice::Choice;

/// Forgets what was noted of the address that was left in the gateway's last step, and of the one that was won.
#[inline(always)]
pub fn forget_changed(choice: &mut Choice, gateway: &Gateway)
    requires { choice.old.sources ≡ places }
    ensures { choice.new ≡ forgotten_of gateway.now.addresses.changed choice.old }
{
    // Nearly no event changes who holds an address.
    if gateway.left().is_some() || gateway.won().is_some() {
        forget(choice, gateway.left());
        forget(choice, gateway.won());
    }
}

/// Nothing is noted of a source any more, where there is one.
fn forget(choice: &mut Choice, source: Option<u8>)
    requires { choice.old.sources ≡ places }
    ensures { choice.new ≡ forgotten_at source choice.old }
{
    match source {
        Some(source) if has_place(source) => choice.forget(source),
        _ => {}
    }
}

/// Whether it is an address that a device can have: nothing is noted of others.
pub fn has_place(address: u8) -> bool
    ensures { result ≡ has_place address }
{
    usize::from(address) < ADDRESSES
}
