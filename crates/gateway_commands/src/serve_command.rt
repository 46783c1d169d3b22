//! `serve`: the gateway of a configuration between two links that live.
ghost use Rattle.std.specs.Prelude.{◌≡◌, ◌≢◌};
ghost use Rattle.serving.specs.BridgeStands.{IsNew};
ghost use Rattle.serving.specs.BridgeSettings.{bridge_settings_of};
ghost use Rattle.serving.specs.Served.{outside};
ghost use Rattle.settings.specs.Setup.{IsSetup};
ghost use Rattle.command_line.specs.Statuses.{IsEarly, number};
ghost use Rattle.gateway_commands.specs.ServeCommand.{AttachesBoth, ServesBy, ServesWith};

use command_line::Status;
use config_check::{give_up, load_whole};
use config_values::Ends;
use gate_outside::{Clock, Failed, Files, Link, Sink};
use network_routes::Routes;
use serving::{Bridge, Setup, take_turns};
use std::alloc::Global;

/// Runs a gateway of the configuration in the file of this name between two links, for so many turns, and answers the status.
#[inline(never)]
pub(crate) fn serve<F: Files, K: Sink, B: Link, E: Link, C: Clock>(
    alloc: Global,
    name: &str,
    turns: u32,
    files: &mut F,
    out: &mut K,
    bus: &mut B,
    net: &mut E,
    clock: &mut C,
) -> Status
    ensures serves { ServesBy turns (F.content files.old name.now) (F.fault_count files.old) (F.fault_count files.new)
        (C.readings clock.old) (C.readings clock.new) (B.fault_count bus.old) (B.fault_count bus.new) (E.fault_count net.old) (E.fault_count net.new)
        (outside (B.traffic bus.old) (E.traffic net.old) (K.taken out.old) (K.fault_count out.old))
        (outside (B.traffic bus.new) (E.traffic net.new) (K.taken out.new) (K.fault_count out.new)) (number result) }
    ensures quiet { IsEarly (number result) → (out.new ≡ out.old) × (bus.new ≡ bus.old) × (net.new ≡ net.old) × (clock.new ≡ clock.old) }
    ensures refused { number result ≡ 3 → (bus.new ≡ bus.old) × (net.new ≡ net.old) × (clock.new ≡ clock.old) }
    ensures unattached { number result ≡ 9 → (out.new ≡ out.old) × (clock.new ≡ clock.old) }
{
    match load_whole(alloc, name, files) {
        Ok(setup) => serve_with(alloc, &*setup, turns, out, bus, net, clock),
        Err(why) => give_up(&why, out),
    }
}

/// Runs a gateway of all that a file configures between two links, for so many turns, and answers the status.
#[inline(never)]
fn serve_with<K: Sink, B: Link, E: Link, C: Clock>(
    alloc: Global,
    setup: &Setup,
    turns: u32,
    out: &mut K,
    bus: &mut B,
    net: &mut E,
    clock: &mut C,
) -> Status
    requires { IsSetup setup.now }
    ensures serves { ServesWith setup.now turns (C.readings clock.old) (C.readings clock.new)
        (B.fault_count bus.old) (B.fault_count bus.new) (E.fault_count net.old) (E.fault_count net.new)
        (outside (B.traffic bus.old) (E.traffic net.old) (K.taken out.old) (K.fault_count out.old))
        (outside (B.traffic bus.new) (E.traffic net.new) (K.taken out.new) (K.fault_count out.new)) (number result) }
    ensures memory { number result ≡ 7 → (out.new ≡ out.old) × (bus.new ≡ bus.old) × (net.new ≡ net.old) × (clock.new ≡ clock.old) }
    ensures unattached { number result ≡ 9 → (out.new ≡ out.old) × (clock.new ≡ clock.old) }
{
    match Bridge::with(alloc, setup) {
        Ok(mut bridge) => {
            let status = serve_between(setup, &mut bridge, turns, out, bus, net, clock);
            bridge.close();
            status
        }
        Err(_) => Status::NoMemory,
    }
}

/// Attaches both links by the settings, and lets a new bridge of them take its turns. It is apart from where the bridge is made, so that whoever
/// holds one has a single way out.
fn serve_between<K: Sink, B: Link, E: Link, C: Clock>(
    setup: &Setup,
    bridge: &mut Bridge,
    turns: u32,
    out: &mut K,
    bus: &mut B,
    net: &mut E,
    clock: &mut C,
) -> Status
    ensures serves { IsNew (bridge_settings_of setup.now) bridge.old
        → ServesWith setup.now turns (C.readings clock.old) (C.readings clock.new)
        (B.fault_count bus.old) (B.fault_count bus.new) (E.fault_count net.old) (E.fault_count net.new)
        (outside (B.traffic bus.old) (E.traffic net.old) (K.taken out.old) (K.fault_count out.old))
        (outside (B.traffic bus.new) (E.traffic net.new) (K.taken out.new) (K.fault_count out.new)) (number result) }
    ensures memory { number result ≢ 7 }
    ensures unattached { number result ≡ 9 → (out.new ≡ out.old) × (clock.new ≡ clock.old) }
{
    match attach_both(&setup.settings.config.ends, bus, net) {
        Ok(()) => take_turns(bridge, turns, out, bus, net, clock),
        Err(Failed) => Status::Unattached,
    }
}

/// Attaches the bus, and then the network.
fn attach_both<B: Link, E: Link>(ends: &Ends, bus: &mut B, net: &mut E) -> Result<(), Failed>
    ensures { AttachesBoth ends.now (B.traffic bus.old) (B.traffic bus.new) (B.fault_count bus.old) (B.fault_count bus.new)
        (E.traffic net.old) (E.traffic net.new) (E.fault_count net.old) (E.fault_count net.new) result }
{
    match bus.attach(ends.bus_listen.as_slice(), &Routes::all_to(&ends.bus_send)) {
        Ok(()) => net.attach(ends.net_listen.as_slice(), &ends.net),
        Err(Failed) => Err(Failed),
    }
}
