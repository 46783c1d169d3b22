//! The keys of `further`: the transmission group of quantities besides the rows, and whom each is taken from.
ghost use Rattle.std.specs.Prelude.{◌≡◌, [], All, IfOk, Some};
ghost use Rattle.std.specs.Option.{ForSome};
ghost use Rattle.std.specs.Int.{IsInRange};
ghost use Rattle.toml.specs.Data.{get_member};
ghost use Rattle.toml.specs.View.{table_view};
ghost use Rattle.config_document.specs.Places.{place_of};
ghost use Rattle.config_document.specs.Texts.{IsTalker};
ghost use Rattle.gate_config.specs.Beside.{AreQuantitiesBeside, IsGroupBeside};
ghost use Rattle.gate_config.specs.Keys.{any_asks, asks, asks_by, further, is_asked, quantities_in, quantity, quantity_at, quantity_of};
ghost use Rattle.gate_config.specs.Reading.{each_from};
ghost use Rattle.quantities.specs.About.{quantities};
ghost use Rattle.settings.specs.Setup.{IsQuantity};

use crate::items::key_prefix;
use crate::keys::{any_stands, number_or, section, stands_at, truth_or};
use crate::parts::own_group;
use crate::quantity::{self, quantity_keys};
use crate::words::{FURTHER, FURTHER_PREFIX, GROUP, SLOTS, TWIN_ENGINES};
use config_document::{ConfigFault, Section};
use config_values::{RowConfig, USUAL_TIMEOUT_MS};
use quantities::{Quantity, all_quantities};
use sentence_text::Group;
use settings::{Quantities, QuantityConfig, QuantityConfigs};
use toml::Table;

pub(crate) const KEYS: [&str; 3] = [GROUP, SLOTS, TWIN_ENGINES];

/// How quantities besides the rows are said, if they are: their group, which no row and no other part has, and each quantity, put into `each`.
#[tactic(auto, using(crate::proofs::Tables::further_name), unfolding(crate::specs::Keys::quantities_in))]
pub(crate) fn further_quantities(
    document: &Section,
    rows: &[RowConfig],
    parts: &[Option<Group>],
    each: QuantityConfigs,
) -> Result<Option<Quantities>, ConfigFault>
    ensures said { result ≡ quantities_in rows.now parts.now (place_of document.now) }
    ensures valid { IfOk result (λ all. ForSome all (AreQuantitiesBeside rows.now parts.now)) }
{
    let table = section(document, FURTHER, FURTHER_PREFIX)?;
    let (group, slots, twin_engines) = further_keys(&table, rows, parts)?;
    let each = each_quantity(&table, each)?;
    match group {
        None => Ok(None),
        Some(group) => Ok(Some(Quantities {
            group,
            slots,
            twin_engines,
            each,
        })),
    }
}

/// The group of quantities, how many of their fast packets may be open, and whether there are two engines.
#[tactic(auto, unfolding(crate::specs::Keys::further))]
fn further_keys(
    table: &Section,
    rows: &[RowConfig],
    parts: &[Option<Group>],
) -> Result<(Option<Group>, u16, bool), ConfigFault>
    ensures said { result ≡ further.read (rows.now, parts.now) (place_of table.now) }
    ensures group { IfOk result (λ all. ForSome all.0 (IsGroupBeside rows.now parts.now)) }
    ensures slots { IfOk result (λ all. IsInRange 1 256 all.1) }
{
    let group = own_group(table, GROUP, rows, parts, is_asked(table))?;
    let slots = number_or(table, SLOTS, 1, 256, 16)? as u16;
    let twin_engines = truth_or(table, TWIN_ENGINES, false)?;
    Ok((group, slots, twin_engines))
}

/// Whether the group is asked for: by another key of the table, or by a quantity.
fn is_asked(table: &Section) -> bool
    ensures { result ≡ is_asked (place_of table.now) }
{
    stands_at(table, SLOTS) || stands_at(table, TWIN_ENGINES) || any_asks(table, all_quantities())
}

fn any_asks(table: &Section, all: &[Quantity]) -> bool
    ensures { result ≡ any_asks (place_of table.now) all.now }
{
    all.iter().any(|quantity| asks(table, quantity.name()))
}

/// Whether the quantity of this name asks for the group: by one of its keys, or by what is no table.
fn asks(table: &Section, name: &str) -> bool
    ensures { result ≡ asks (get_member name.now (place_of table.now).members) }
{
    match table.member(name) {
        None => false,
        Some(value) => match value.as_table() {
            None => true,
            Some(keys) => has_key(keys),
        },
    }
}

/// Whether the table has a key of a quantity.
#[tactic(auto, unfolding(crate::specs::Keys::quantity))]
fn has_key(table: &Table) -> bool
    ensures { result ≡ asks_by (Some (table_view table.now)) }
{
    let table = Section {
        prefix: b"",
        table: Some(table),
    };
    any_stands(&table, &quantity::KEYS)
}

/// All quantities, each with its own talker where none is configured, in place of what stands there.
fn each_quantity(table: &Section, mut read: QuantityConfigs) -> Result<QuantityConfigs, ConfigFault>
    ensures said { result ≡ each_from (quantity_of (place_of table.now)) [] quantities }
    ensures valid { IfOk result (All IsQuantity) }
{
    let _all = read.as_slice();
    for each in all_quantities() {
        let name = each.name();
        let prefix = key_prefix(FURTHER_PREFIX, name);
        let quantity = quantity(table, name, prefix.as_slice(), each.talker())?;
        read.set(*each, quantity);
    }
    Ok(read)
}

/// The quantity of this name, and of this talker where none is configured.
#[tactic(auto, unfolding(crate::specs::Keys::quantity_at))]
fn quantity(
    table: &Section,
    name: &str,
    prefix: &[u8],
    talker: [u8; 2],
) -> Result<QuantityConfig, ConfigFault>
    requires { IsTalker talker }
    ensures said { result ≡ quantity_at talker (place_of table.now) name.now prefix.now }
    ensures valid { IfOk result IsQuantity }
{
    let section = section(table, name, prefix)?;
    quantity_keys(&section, talker, USUAL_TIMEOUT_MS)
}
