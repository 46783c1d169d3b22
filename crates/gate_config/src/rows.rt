//! The keys of each row: whom it is taken from, and how it is said.
ghost use Rattle.std.specs.Prelude.{◌≡◌, [], All, IfOk};
ghost use Rattle.config_document.specs.Places.{place_of};
ghost use Rattle.config_document.specs.Texts.{IsTalker};
ghost use Rattle.config_values.specs.Rows.{IsRow};
ghost use Rattle.gate_config.specs.Keys.{row, row_at, row_of, rows_in};
ghost use Rattle.gate_config.specs.Reading.{each_from};

use crate::items::key_prefix;
use crate::keys::{section, text_or};
use crate::quantity::quantity_keys;
use crate::words::{GROUP, OTHERS, ROW, ROW_PREFIX, SOURCES, TALKER, TIMEOUT_MS, WATCH_MS};
use arrayvec::ArrayVec;
use config_document::{ConfigFault, Section};
use config_values::{RowConfig, USUAL_TIMEOUT_MS};
use readings::{ROWS, Row, all_rows};
use sentence_text::Group;
use settings::QuantityConfig;

pub(crate) const KEYS: [&str; 6] = [SOURCES, OTHERS, TIMEOUT_MS, TALKER, GROUP, WATCH_MS];

/// What each row is taken from and how it is said, in the order of the rows.
#[tactic(auto, using(crate::proofs::Tables::row_name), unfolding(crate::specs::Keys::rows_in))]
pub(crate) fn row_keys(document: &Section, group: Group) -> Result<[RowConfig; ROWS], ConfigFault>
    ensures said { result ≡ rows_in group (place_of document.now) }
    ensures valid { IfOk result (All IsRow) }
{
    each_row(&section(document, ROW, ROW_PREFIX)?, group, all_rows())
}

/// These rows, each with its own talker where none is configured.
fn each_row(
    rows: &Section,
    group: Group,
    all: &[Row; ROWS],
) -> Result<[RowConfig; ROWS], ConfigFault>
    ensures said { result ≡ each_from (row_of group (place_of rows.now)) [] all.now }
    ensures valid { IfOk result (All IsRow) }
{
    let mut read = ArrayVec::new();
    for each in all {
        let name = each.name();
        let prefix = key_prefix(ROW_PREFIX, name);
        let row = row(rows, name, prefix.as_slice(), each.talker(), group)?;
        read.push(row);
    }
    match read.into_inner() {
        Ok(rows) => Ok(rows),
        Err(_) => unreachable!(),
    }
}

/// The row of this name, and of this talker and group where none is configured.
#[tactic(auto, unfolding(crate::specs::Keys::row_at))]
fn row(
    rows: &Section,
    name: &str,
    prefix: &[u8],
    talker: [u8; 2],
    group: Group,
) -> Result<RowConfig, ConfigFault>
    requires { IsTalker talker }
    ensures said { result ≡ row_at talker group (place_of rows.now) name.now prefix.now }
    ensures valid { IfOk result IsRow }
{
    let section = section(rows, name, prefix)?;
    keys_of_row(&section, talker, group)
}

#[tactic(auto, unfolding(crate::specs::Keys::row))]
fn keys_of_row(section: &Section, talker: [u8; 2], group: Group) -> Result<RowConfig, ConfigFault>
    requires { IsTalker talker }
    ensures said { result ≡ row.read (talker, group) (place_of section.now) }
    ensures valid { IfOk result IsRow }
{
    let taken = quantity_keys(section, talker, USUAL_TIMEOUT_MS)?;
    let group = text_or(section, GROUP, group)?;
    let QuantityConfig {
        sources,
        others,
        timeout_ms,
        talker,
    } = taken;
    Ok(RowConfig {
        sources,
        others,
        timeout_ms,
        talker,
        group,
    })
}
