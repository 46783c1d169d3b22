//! The keys of rows that have to be said: how long each may stay unsaid, and how alerts are said. They are read behind those of other tables.
ghost use Rattle.std.specs.Prelude.{◌≡◌, [], IfOk};
ghost use Rattle.std.specs.Int.{IsInRange};
ghost use Rattle.std.specs.Option.{ForSome};
ghost use Rattle.config_document.specs.Places.{place_of};
ghost use Rattle.gate_config.specs.Beside.{IsGroupBeside};
ghost use Rattle.gate_config.specs.Keys.{alerts, limit_at, limit_of, limits_in, watch_in};
ghost use Rattle.gate_config.specs.Reading.{each_from, table_in};
ghost use Rattle.settings.specs.Watch.{AreAlerts, AreLimits, IsWatch, alert_group};

use crate::items::key_prefix;
use crate::keys::{section, stands_at, text_or};
use crate::parts::own_group;
use crate::words::{GROUP, ROW, ROW_PREFIX, TALKER, WATCH, WATCH_MS, WATCH_PREFIX};
use arrayvec::ArrayVec;
use config_document::{ConfigFault, Section, Talker};
use config_values::RowConfig;
use readings::{ROWS, Row, all_rows};
use sentence_text::Group;
use settings::{AlertConfig, WatchConfig};

pub(crate) const KEYS: [&str; 2] = [GROUP, TALKER];

/// Which rows have to be said, and how alerts are said.
#[tactic(auto, unfolding(crate::specs::Keys::watch_in))]
pub(crate) fn watch_keys(
    document: &Section,
    rows: &[RowConfig],
    parts: &[Option<Group>],
) -> Result<WatchConfig, ConfigFault>
    ensures said { result ≡ watch_in rows.now parts.now (place_of document.now) }
    ensures valid { IfOk result (IsWatch (IsGroupBeside rows.now parts.now)) }
{
    let limits = limit_keys(document)?;
    let alerts = alert_keys(document, rows, parts)?;
    Ok(WatchConfig { limits, alerts })
}

/// The group of alerts.
pub(crate) fn alert_group(watch: &WatchConfig) -> Option<Group>
    ensures { result ≡ alert_group watch.now }
{
    match &watch.alerts {
        Some(alerts) => Some(alerts.group),
        None => None,
    }
}

/// How long each row may stay unsaid, in the order of the rows.
#[tactic(auto, using(crate::proofs::Tables::watched_name), unfolding(crate::specs::Keys::limits_in))]
fn limit_keys(document: &Section) -> Result<[Option<u32>; ROWS], ConfigFault>
    ensures said { result ≡ limits_in (place_of document.now) }
    ensures valid { IfOk result AreLimits }
{
    each_limit(&section(document, ROW, ROW_PREFIX)?, all_rows())
}

fn each_limit(rows: &Section, all: &[Row; ROWS]) -> Result<[Option<u32>; ROWS], ConfigFault>
    ensures said { result ≡ each_from (limit_of (place_of rows.now)) [] all.now }
    ensures valid { IfOk result AreLimits }
{
    let mut read = ArrayVec::new();
    for each in all {
        let name = each.name();
        let prefix = key_prefix(ROW_PREFIX, name);
        let limit = limit(rows, name, prefix.as_slice())?;
        read.push(limit);
    }
    match read.into_inner() {
        Ok(limits) => Ok(limits),
        Err(_) => unreachable!(),
    }
}

/// How long the row of this name may stay unsaid, in milliseconds.
#[tactic(auto, unfolding(crate::specs::Keys::limit_at, crate::specs::Keys::watched))]
fn limit(rows: &Section, name: &str, prefix: &[u8]) -> Result<Option<u32>, ConfigFault>
    ensures said { result ≡ limit_at (place_of rows.now) name.now prefix.now }
    ensures valid { IfOk result (λ limit. ForSome limit (IsInRange 1000 600000)) }
{
    let section = section(rows, name, prefix)?;
    section.number(WATCH_MS, 1_000, 600_000)
}

/// How alerts are said, if they are: to a group that no row and no other part has.
#[tactic(auto, using(crate::proofs::Values::talker), unfolding(crate::specs::Keys::alerts))]
fn alert_keys(
    document: &Section,
    rows: &[RowConfig],
    parts: &[Option<Group>],
) -> Result<Option<AlertConfig>, ConfigFault>
    ensures said { result ≡ table_in alerts (rows.now, parts.now) (place_of document.now) }
    ensures valid { IfOk result (λ all. ForSome all (AreAlerts (IsGroupBeside rows.now parts.now))) }
{
    let table = section(document, WATCH, WATCH_PREFIX)?;
    let own = own_group(&table, GROUP, rows, parts, stands_at(&table, TALKER))?;
    let Talker(talker) = text_or(&table, TALKER, Talker(*b"II"))?;
    match own {
        None => Ok(None),
        Some(group) => Ok(Some(AlertConfig { group, talker })),
    }
}
