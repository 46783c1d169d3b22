//! Heartbeats beside the gateway, behind the rows under watch.
ghost use Rattle.std.specs.Prelude.{◌≡◌, ℕ, [], false, None, Some, if◌then◌else◌};
ghost use Rattle.std.specs.Option.{ForSome};
ghost use Rattle.history.specs.Settings.{Settings};
ghost use Rattle.parts.specs.Compose.{both_output, maybe_stand};
ghost use Rattle.parts.specs.Lanes.{given_plain};
ghost use Rattle.parts.specs.PartSteps.{IsOpened};
ghost use Rattle.settings.specs.Heartbeat.{IsBusInterval, IsHeartbeat, IsNetHeartbeat};
ghost use Rattle.settings.specs.Setup.{IsSetup, gateway_of};
ghost use Rattle.heartbeats.specs.Beats.{BeatsTake, asked_by, beat_output, beats_asked, beats_stand};
ghost use Rattle.heartbeats.specs.Kept.{bus_stands, net_stands};

use crate::bus_beats::{self, BusBeats};
use crate::net_beats::{self, NetBeats};
use parts::{Given, Step};
use sentence_text::Sfi;
use settings::{HeartbeatConfig, Setup};

/// Where heartbeats are put: HBT, and the frame behind it.
pub type BeatPlace = (Given<0>, Given<1>);

/// Heartbeats on the network and on the bus.
#[derive(Drop)]
pub struct Heartbeats {
    net: Option<NetBeats>,
    bus: Option<BusBeats>,
}

impl Heartbeats {
    /// With none given yet, of a gateway that speaks by this system function identifier.
    fn new(config: &HeartbeatConfig, sfi: Sfi) -> Heartbeats
        requires { IsHeartbeat config.now }
        ensures { (c : Settings) → c.sfi ≡ sfi → IsOpened beats_stand config.now c result }
    {
        Heartbeats {
            net: net_of(config, sfi),
            bus: bus_of(config),
        }
    }

    /// The heartbeats that a file asks for, with none given yet; none if it doesn't.
    pub fn opened(setup: &Setup) -> Option<Heartbeats>
        requires { IsSetup setup.now }
        ensures { IsOpened (maybe_stand beats_stand) (beats_asked setup.now) (gateway_of setup.now) result }
    {
        let config = &setup.heartbeat;
        if asks(config) {
            Some(Heartbeats::new(config, setup.settings.config.sfi))
        } else {
            None
        }
    }

    /// Takes an event behind which a watched row is silent or not. False: it gives nothing.
    pub fn after_rows(&mut self, step: &Step<'_>, is_silent: bool, place: &mut BeatPlace) -> bool
        requires empty { beat_output place.old ≡ [] }
        ensures takes { BeatsTake step.now is_silent self.old self.new place.new }
        ensures unsaid { both_output given_plain given_plain place.new ≡ both_output given_plain given_plain place.old }
        ensures gave { result ≡ false → beat_output place.new ≡ [] }
    {
        let said = net_beats::after_event(&mut self.net, step, is_silent, &mut place.0);
        let sent = bus_beats::after_event(&mut self.bus, step, &mut place.1);
        said || sent
    }
}

/// Whether one of the two is asked for.
fn asks(config: &HeartbeatConfig) -> bool
    ensures { asked_by config.now.net config.now.bus_every_s config.now ≡ (if result then Some config.now else None) }
{
    config.net.is_some() || config.bus_every_s.is_some()
}

/// HBT, where it is asked for.
fn net_of(config: &HeartbeatConfig, sfi: Sfi) -> Option<NetBeats>
    requires { ForSome config.now.net IsNetHeartbeat }
    ensures { (c : Settings) (s : ℕ) → c.sfi ≡ sfi → maybe_stand net_stands config.now.net c s [] result }
{
    match &config.net {
        None => None,
        Some(net) => Some(NetBeats::new(net, sfi)),
    }
}

/// Frames of PGN 126993, where they are asked for.
fn bus_of(config: &HeartbeatConfig) -> Option<BusBeats>
    requires { ForSome config.now.bus_every_s IsBusInterval }
    ensures { (c : Settings) (s : ℕ) → maybe_stand bus_stands config.now.bus_every_s c s [] result }
{
    match config.bus_every_s {
        None => None,
        Some(every_s) => Some(BusBeats::new(every_s)),
    }
}
