//! Keys that are read behind those of the settings: devices that no row is taken from, whether changes of a source and of the gateway's own
//! address are told, the transmission group of plain sentences and their pace, whether a run is recorded, and which of the sentences from
//! the network are read.
ghost use Rattle.std.specs.Prelude.{◌≡◌, IfOk, option_map};
ghost use Rattle.std.specs.Int.{IsInRange};
ghost use Rattle.std.specs.Option.{ForSome};
ghost use Rattle.config_document.specs.Places.{place_of};
ghost use Rattle.config_values.specs.Rows.{AreSources};
ghost use Rattle.gate_config.specs.Beside.{IsGroupBeside};
ghost use Rattle.gate_config.specs.Keys.{ignored, optional, pace, plain, report, serve};
ghost use Rattle.gate_config.specs.Reading.{table_in};

use crate::devices::devices;
use crate::keys::{number_or, section, stands_at, truth_or};
use crate::parts::own_group;
use crate::words::{
    ADDRESS, BUS, BUS_PREFIX, DBT, EVERY_MS, GROUP, IGNORE, NET, NET_PREFIX, PLAIN, PLAIN_PREFIX,
    RECORD, REPORT, REPORT_PREFIX, RMC, SERVE, SERVE_PREFIX, SOURCES,
};
use arrayvec::ArrayVec;
use config_document::{ConfigFault, Section};
use config_values::RowConfig;
use n2k_id::Pattern;
use sentence_profile::OptionalSentences;
use sentence_text::Group;
use settings::Quantities;

pub(crate) const REPORT_KEYS: [&str; 2] = [SOURCES, ADDRESS];

pub(crate) const PLAIN_KEYS: [&str; 2] = [GROUP, EVERY_MS];

pub(crate) const SERVE_KEYS: [&str; 1] = [RECORD];

/// The devices that no row is taken from: a key of `bus` that is read behind those of other tables.
#[tactic(auto, unfolding(crate::specs::Keys::ignored))]
pub(crate) fn ignored_keys(document: &Section) -> Result<ArrayVec<Pattern, 16>, ConfigFault>
    ensures said { result ≡ table_in ignored tt (place_of document.now) }
    ensures valid { IfOk result (λ devices. AreSources devices.items) }
{
    let table = section(document, BUS, BUS_PREFIX)?;
    devices(&table, IGNORE)
}

/// Whether changes of a row's source are told, and changes of the gateway's own address.
#[tactic(auto, unfolding(crate::specs::Keys::report))]
pub(crate) fn report_keys(document: &Section) -> Result<(bool, bool), ConfigFault>
    ensures { result ≡ table_in report tt (place_of document.now) }
{
    let table = section(document, REPORT, REPORT_PREFIX)?;
    let sources = truth_or(&table, SOURCES, false)?;
    let address = truth_or(&table, ADDRESS, false)?;
    Ok((sources, address))
}

/// The group of plain sentences, which no row and no other part has.
#[tactic(auto, unfolding(crate::specs::Keys::plain))]
pub(crate) fn plain_keys(
    document: &Section,
    rows: &[RowConfig],
    parts: &[Option<Group>],
) -> Result<Option<Group>, ConfigFault>
    ensures said { result ≡ table_in plain (rows.now, parts.now) (place_of document.now) }
    ensures valid { IfOk result (λ group. ForSome group (IsGroupBeside rows.now parts.now)) }
{
    let table = section(document, PLAIN, PLAIN_PREFIX)?;
    own_group(&table, GROUP, rows, parts, stands_at(&table, EVERY_MS))
}

/// How long plain sentences that say the same pause, in milliseconds: a key of `plain` that is read behind those of `serve`.
#[tactic(auto, unfolding(crate::specs::Keys::pace))]
pub(crate) fn pace_keys(document: &Section) -> Result<u32, ConfigFault>
    ensures said { result ≡ table_in pace tt (place_of document.now) }
    ensures valid { IfOk result (IsInRange 0 60000) }
{
    let table = section(document, PLAIN, PLAIN_PREFIX)?;
    number_or(&table, EVERY_MS, 0, 60_000, 0)
}

/// Which of the sentences from the network are read that a configuration decides on: keys of `net` that are read behind the pace of plain
/// sentences.
#[tactic(auto, unfolding(crate::specs::Keys::optional))]
pub(crate) fn optional_keys(document: &Section) -> Result<OptionalSentences, ConfigFault>
    ensures { result ≡ table_in optional tt (place_of document.now) }
{
    let table = section(document, NET, NET_PREFIX)?;
    let rmc = truth_or(&table, RMC, false)?;
    let dbt = truth_or(&table, DBT, true)?;
    Ok(OptionalSentences { rmc, dbt })
}

/// Whether a run is recorded.
#[tactic(auto, unfolding(crate::specs::Keys::serve))]
pub(crate) fn serve_keys(document: &Section) -> Result<bool, ConfigFault>
    ensures { result ≡ table_in serve tt (place_of document.now) }
{
    let table = section(document, SERVE, SERVE_PREFIX)?;
    truth_or(&table, RECORD, false)
}

/// The group of further quantities.
pub(crate) fn quantities_group(quantities: &Option<Quantities>) -> Option<Group>
    ensures { result ≡ option_map (λ q. q.group) quantities.now }
{
    match quantities {
        None => None,
        Some(quantities) => Some(quantities.group),
    }
}
