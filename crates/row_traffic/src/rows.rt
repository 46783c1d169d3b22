//! The rows by their numbers, how they are configured, and when a reading says something of one.
ghost use Rattle.std.specs.Prelude.{◌≡◌, ◌<◌, IsTrue, Some};
ghost use Rattle.std.specs.List.{list_all};
ghost use Rattle.sentence_text.specs.Byte.{is_capital};
ghost use Rattle.readings.specs.Rows.{row_number};
ghost use Rattle.history.specs.Choice.{is_usable, rank_of, told_by};
ghost use Rattle.history.specs.Settings.{rule_at, rule_of};
ghost use Rattle.config_values.specs.Configs.{IsConfig};
ghost use Rattle.config_values.specs.Rows.{IsRow};
ghost use Rattle.config_values.specs.Settings.{settings_by, rule_of_row};

use config_values::{RowConfig, SelectiveConfig};
use n2k_id::Name;
use readings::{ROWS, Reading, Row, row, usable};
use source_choice::{Rank, Told, rank_of};

/// The place of the row among the rows.
pub(crate) fn number(row: Row) -> usize
    ensures number { result ≡ row_number row }
    ensures within { result < ROWS }
{
    row.number()
}

/// How the row with this number is taken and said.
#[tactic(auto, using(config_values::proofs::SettingsLemmas::rules_are_by_number))]
pub fn row_at(config: &SelectiveConfig, number: usize) -> &RowConfig
    requires { number < ROWS }
    ensures rule { rule_of_row config.now.ignored.items result.now ≡ rule_at (settings_by config.now).rows number }
    ensures valid { IsConfig config.now.base → IsRow result.now }
{
    &config.base.rows[number]
}

/// How the row is taken and said.
pub(crate) fn row_config(config: &SelectiveConfig, row: Row) -> &RowConfig
    ensures rule { rule_of_row config.now.ignored.items result.now ≡ rule_of (settings_by config.now) row }
    ensures valid { IsConfig config.now.base → IsRow result.now }
{
    row_at(config, number(row))
}

/// The talker of the row's sentences.
pub(crate) fn talker_of(config: &SelectiveConfig, row: Row) -> [u8; 2]
    requires { IsConfig config.now.base }
    ensures talker { result ≡ (rule_of (settings_by config.now) row).talker }
    ensures capitals { IsTrue (list_all is_capital result) }
{
    row_config(config, row).talker
}

/// The rank of a NAME in the row: a device that is ignored has none.
pub(crate) fn rank_in(config: &SelectiveConfig, row: Row, name: Name) -> Option<Rank>
    ensures { result ≡ rank_of (rule_of (settings_by config.now) row) name.0 }
{
    let row = row_config(config, row);
    rank_of(&row.sources, row.others, &config.ignored, name)
}

/// What the reading tells of its row.
pub(crate) fn told_by(reading: &Reading) -> Told
    ensures told { result ≡ told_by reading.now }
    ensures within { result.subject < ROWS }
{
    Told {
        subject: number(row(reading)),
        usable: says_something(reading),
    }
}

/// Whether the reading says something of its row.
pub(crate) fn says_something(reading: &Reading) -> bool
    ensures { result ≡ is_usable (Some reading.now) }
{
    usable(reading)
}
