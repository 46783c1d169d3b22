//! The keys of `heartbeat`: HBT on the network, and frames of PGN 126993 on the bus.
ghost use Rattle.std.specs.Prelude.{◌≡◌, IfOk};
ghost use Rattle.std.specs.Option.{ForSome};
ghost use Rattle.config_document.specs.Places.{place_of};
ghost use Rattle.gate_config.specs.Beside.{IsGroupBeside};
ghost use Rattle.gate_config.specs.Keys.{asks_hbt, hbt, heartbeat};
ghost use Rattle.gate_config.specs.Reading.{table_in};
ghost use Rattle.settings.specs.Heartbeat.{IsHeartbeat, IsNetHeartbeat};

use crate::keys::{number_or, section, stands_at, text_or};
use crate::parts::own_group;
use crate::words::{BUS_EVERY_S, EVERY_S, GROUP, HEARTBEAT, HEARTBEAT_PREFIX, TALKER};
use config_document::{ConfigFault, Section, Talker};
use config_values::RowConfig;
use sentence_text::Group;
use settings::{HeartbeatConfig, NetHeartbeat};

pub(crate) const KEYS: [&str; 4] = [GROUP, EVERY_S, TALKER, BUS_EVERY_S];

/// How heartbeats are said. The group of HBT is one that no row and no other part has.
#[tactic(auto, unfolding(crate::specs::Keys::heartbeat))]
pub(crate) fn heartbeat_keys(
    document: &Section,
    rows: &[RowConfig],
    parts: &[Option<Group>],
) -> Result<HeartbeatConfig, ConfigFault>
    ensures said { result ≡ table_in heartbeat (rows.now, parts.now) (place_of document.now) }
    ensures valid { IfOk result IsHeartbeat }
    ensures free { IfOk result (λ b. ForSome b.net (λ n. IsGroupBeside rows.now parts.now n.group)) }
{
    let table = section(document, HEARTBEAT, HEARTBEAT_PREFIX)?;
    let net = hbt_keys(&table, rows, parts)?;
    let bus_every_s = table.number(BUS_EVERY_S, 1, 60)?;
    Ok(HeartbeatConfig { net, bus_every_s })
}

/// How HBT is said, if it is.
#[tactic(auto, using(crate::proofs::Values::talker), unfolding(crate::specs::Keys::hbt))]
fn hbt_keys(
    table: &Section,
    rows: &[RowConfig],
    parts: &[Option<Group>],
) -> Result<Option<NetHeartbeat>, ConfigFault>
    ensures said { result ≡ hbt.read (rows.now, parts.now) (place_of table.now) }
    ensures valid { IfOk result (λ net. ForSome net IsNetHeartbeat) }
    ensures free { IfOk result (λ net. ForSome net (λ n. IsGroupBeside rows.now parts.now n.group)) }
{
    let own = own_group(table, GROUP, rows, parts, asks_hbt(table))?;
    let every_s = number_or(table, EVERY_S, 1, 999, 60)?;
    let Talker(talker) = text_or(table, TALKER, Talker(*b"II"))?;
    match own {
        None => Ok(None),
        Some(group) => Ok(Some(NetHeartbeat {
            group,
            every_s,
            talker,
        })),
    }
}

/// Whether a key of HBT asks for its group.
fn asks_hbt(table: &Section) -> bool
    ensures { result ≡ asks_hbt (place_of table.now) }
{
    stands_at(table, EVERY_S) || stands_at(table, TALKER)
}
