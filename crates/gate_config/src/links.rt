//! The keys of `net` and `bus`: whom the network is heard from, and where the links listen and send.
ghost use Rattle.std.specs.Prelude.{◌≡◌, ◌≤◌, ◌∷◌, IfOk};
ghost use Rattle.config_document.specs.Keys.{list_at};
ghost use Rattle.config_document.specs.Places.{place_of};
ghost use Rattle.config_document.specs.Texts.{sfi_in};
ghost use Rattle.config_document.specs.Twice.{repeats};
ghost use Rattle.config_values.specs.Endpoints.{IsEndpoint};
ghost use Rattle.gate_config.specs.Beside.{AreNetKeys, AreSourcesBeside};
ghost use Rattle.gate_config.specs.Keys.{bus, link, net};
ghost use Rattle.gate_config.specs.Reading.{table_in, unless};
ghost use Rattle.gate_config.specs.Texts.{same_text};

use crate::endpoint::{Endpoint, loopback};
use crate::keys::{section, text_or};
use crate::words::{BUS, BUS_PREFIX, DBT, IGNORE, LISTEN, NET, NET_PREFIX, RMC, SEND, SOURCES};
use arrayvec::ArrayVec;
use config_document::{ConfigFault, Flaw, Section, repeats};
use network_routes::Address;
use sentence_text::Sfi;

pub(crate) const NET_KEYS: [&str; 5] = [SOURCES, LISTEN, SEND, RMC, DBT];

pub(crate) const BUS_KEYS: [&str; 3] = [LISTEN, SEND, IGNORE];

/// Whom the network is heard from, and where the link to it listens and sends.
type NetKeys = (ArrayVec<Sfi, 32>, Address, Address);

/// Whom the network is heard from, and where the link to it listens and sends.
#[tactic(auto, unfolding(crate::specs::Keys::net))]
pub(crate) fn net_keys(document: &Section, own: Sfi) -> Result<NetKeys, ConfigFault>
    ensures said { result ≡ table_in net own (place_of document.now) }
    ensures valid { IfOk result (AreNetKeys own) }
{
    let table = section(document, NET, NET_PREFIX)?;
    Ok((
        net_sources(&table, SOURCES, own)?,
        link(&table, LISTEN, 60_001)?,
        link(&table, SEND, 60_002)?,
    ))
}

/// Where the link to the bus listens and sends.
#[tactic(auto, unfolding(crate::specs::Keys::bus))]
pub(crate) fn bus_keys(document: &Section) -> Result<(Address, Address), ConfigFault>
    ensures said { result ≡ table_in bus tt (place_of document.now) }
    ensures valid { IfOk result (λ bus. IsEndpoint bus.0.items × IsEndpoint bus.1.items) }
{
    let table = section(document, BUS, BUS_PREFIX)?;
    Ok((link(&table, LISTEN, 60_101)?, link(&table, SEND, 60_102)?))
}

/// Whom the network is heard from; the gateway isn't its own source.
#[tactic(auto, unfolding(crate::specs::Reading::unless))]
fn net_sources(net: &Section, name: &str, own: Sfi) -> Result<ArrayVec<Sfi, 32>, ConfigFault>
    ensures said { result ≡ unless (λ sources. repeats same_text (own ∷ sources.items)) (list_at sfi_in 32) (place_of net.now) name.now }
    ensures valid { IfOk result (λ sources. AreSourcesBeside own sources.items) }
{
    let sources = net.list::<Sfi, 32>(name)?;
    if sources.contains(&own) || repeats(sources.as_slice()) {
        return Err(net.fault(name, Flaw::Twice));
    }
    Ok(sources)
}

/// Where a link listens or sends, or this port of the machine itself.
#[tactic(auto, unfolding(crate::specs::Keys::link))]
fn link(section: &Section, name: &str, port: u16) -> Result<Address, ConfigFault>
    requires { 1 ≤ port }
    ensures said { result ≡ link port (place_of section.now) name.now }
    ensures valid { IfOk result (λ end. IsEndpoint end.items) }
{
    let Endpoint(address) = text_or(section, name, loopback(port))?;
    Ok(address)
}
