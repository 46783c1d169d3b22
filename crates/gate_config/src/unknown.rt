//! Keys that aren't known, in every table.
ghost use Rattle.std.specs.Prelude.{◌≡◌, ◌≤◌, ◌++◌, All, IfOk, length, map};
ghost use Rattle.toml.specs.Data.{get_member};
ghost use Rattle.toml.specs.View.{items_view};
ghost use Rattle.config_document.specs.Places.{place_of};
ghost use Rattle.config_document.specs.Unknown.{path_seen};
ghost use Rattle.gate_config.specs.Unknown.{each_noted, first_unknown, further_noted, gateway_noted, items_of, links_noted, noted, noted_items, parts_noted, pilot_noted, place_under, quantities_noted, quantity_names, row_names, rows_noted};

use crate::items::{item_prefix, key_prefix};
use crate::words::{
    AIS, AIS_PREFIX, BUS, BUS_PREFIX, FURTHER, FURTHER_PREFIX, GATEWAY, GATEWAY_PREFIX, HEADING,
    HEADING_PREFIX, HEARTBEAT, HEARTBEAT_PREFIX, IDENTITY, IDENTITY_PREFIX, NAV, NAV_PREFIX, NET,
    NET_PREFIX, PLAIN, PLAIN_PREFIX, PRESET, PRESET_PREFIX, REPORT, REPORT_PREFIX, RMC, RMC_PREFIX,
    ROUTE, ROUTE_PREFIX, ROW, ROW_PREFIX, SERVE, SERVE_PREFIX, WATCH, WATCH_PREFIX,
};
use crate::{
    further, further_quantities, gateway, heading, heartbeat, identity, links, nav, parts, presets,
    quantity, routes, rows, watch,
};
use arrayvec::ArrayVec;
use config_document::{Section, least_unknown};
use quantities::{QUANTITIES, Quantity, all_quantities};
use readings::{ROWS, Row, all_rows};
use std::alloc::{AllocError, Global};
use toml::Value;

/// The tables of a configuration.
const TABLES: [&str; 17] = [
    GATEWAY, PRESET, ROW, NET, BUS, ROUTE, IDENTITY, RMC, AIS, FURTHER, REPORT, PLAIN, SERVE,
    HEADING, NAV, WATCH, HEARTBEAT,
];

/// The path of the key that isn't known, and that comes first of all such in the order of bytes.
pub(crate) fn first_unknown(
    alloc: Global,
    document: &Section,
) -> Result<Option<Vec<u8>>, AllocError>
    ensures { IfOk result (λ path. path_seen path ≡ first_unknown (place_of document.now)) }
{
    let least = least_unknown(alloc, document, &TABLES, None)?;
    let least = in_gateway(alloc, document, least)?;
    let least = in_links(alloc, document, least)?;
    let least = in_parts(alloc, document, least)?;
    let least = in_further(alloc, document, least)?;
    let least = in_pilot(alloc, document, least)?;
    under(alloc, document, WATCH, WATCH_PREFIX, &watch::KEYS, least)
}

/// The lesser of this path and those of the gateway itself, of the devices that it knows, and of its rows.
fn in_gateway(
    alloc: Global,
    document: &Section,
    least: Option<Vec<u8>>,
) -> Result<Option<Vec<u8>>, AllocError>
    ensures { IfOk result (λ path. path_seen path ≡ gateway_noted (place_of document.now) (path_seen least)) }
{
    let least = under(
        alloc,
        document,
        GATEWAY,
        GATEWAY_PREFIX,
        &gateway::KEYS,
        least,
    )?;
    let presets = items(document, PRESET);
    let least = in_items(alloc, presets, PRESET_PREFIX, &presets::KEYS, least)?;
    in_row_table(alloc, &table_under(document, ROW, ROW_PREFIX), least)
}

/// The same of the links, and of the routes between them.
fn in_links(
    alloc: Global,
    document: &Section,
    least: Option<Vec<u8>>,
) -> Result<Option<Vec<u8>>, AllocError>
    ensures { IfOk result (λ path. path_seen path ≡ links_noted (place_of document.now) (path_seen least)) }
{
    let least = under(alloc, document, NET, NET_PREFIX, &links::NET_KEYS, least)?;
    let least = under(alloc, document, BUS, BUS_PREFIX, &links::BUS_KEYS, least)?;
    let routes = items(document, ROUTE);
    in_items(alloc, routes, ROUTE_PREFIX, &routes::KEYS, least)
}

/// The same of what the gateway says of itself, and of the parts beside it.
fn in_parts(
    alloc: Global,
    document: &Section,
    least: Option<Vec<u8>>,
) -> Result<Option<Vec<u8>>, AllocError>
    ensures { IfOk result (λ path. path_seen path ≡ parts_noted (place_of document.now) (path_seen least)) }
{
    let least = under(
        alloc,
        document,
        IDENTITY,
        IDENTITY_PREFIX,
        &identity::KEYS,
        least,
    )?;
    let least = under(alloc, document, RMC, RMC_PREFIX, &parts::RMC_KEYS, least)?;
    under(alloc, document, AIS, AIS_PREFIX, &parts::AIS_KEYS, least)
}

/// The same of further keys.
fn in_further(
    alloc: Global,
    document: &Section,
    least: Option<Vec<u8>>,
) -> Result<Option<Vec<u8>>, AllocError>
    ensures { IfOk result (λ path. path_seen path ≡ further_noted (place_of document.now) (path_seen least)) }
{
    let quantities = table_under(document, FURTHER, FURTHER_PREFIX);
    let least = in_quantities(alloc, &quantities, least)?;
    let least = under(
        alloc,
        document,
        REPORT,
        REPORT_PREFIX,
        &further::REPORT_KEYS,
        least,
    )?;
    let least = under(
        alloc,
        document,
        PLAIN,
        PLAIN_PREFIX,
        &further::PLAIN_KEYS,
        least,
    )?;
    let least = under(
        alloc,
        document,
        SERVE,
        SERVE_PREFIX,
        &further::SERVE_KEYS,
        least,
    )?;
    under(
        alloc,
        document,
        HEARTBEAT,
        HEARTBEAT_PREFIX,
        &heartbeat::KEYS,
        least,
    )
}

/// The same of what is said to autopilots: joined headings, and the legs of plotters.
fn in_pilot(
    alloc: Global,
    document: &Section,
    least: Option<Vec<u8>>,
) -> Result<Option<Vec<u8>>, AllocError>
    ensures { IfOk result (λ path. path_seen path ≡ pilot_noted (place_of document.now) (path_seen least)) }
{
    let least = under(
        alloc,
        document,
        HEADING,
        HEADING_PREFIX,
        &heading::KEYS,
        least,
    )?;
    under(alloc, document, NAV, NAV_PREFIX, &nav::KEYS, least)
}

/// The same of the table of rows, and of each row's table.
#[tactic(auto, unfolding(crate::specs::Unknown::rows_noted))]
fn in_row_table(
    alloc: Global,
    rows: &Section,
    least: Option<Vec<u8>>,
) -> Result<Option<Vec<u8>>, AllocError>
    ensures { IfOk result (λ path. path_seen path ≡ rows_noted (place_of rows.now) (path_seen least)) }
{
    let names = row_names(all_rows());
    let least = least_unknown(alloc, rows, names.as_slice(), least)?;
    under_each(
        alloc,
        rows,
        ROW_PREFIX,
        names.as_slice(),
        &rows::KEYS,
        least,
    )
}

/// The same of the table of further quantities, and of each quantity's table.
#[tactic(auto, unfolding(crate::specs::Unknown::quantities_noted))]
fn in_quantities(
    alloc: Global,
    table: &Section,
    least: Option<Vec<u8>>,
) -> Result<Option<Vec<u8>>, AllocError>
    ensures { IfOk result (λ path. path_seen path ≡ quantities_noted (place_of table.now) (path_seen least)) }
{
    let names = quantity_names(all_quantities());
    let known = keys_and_names(&further_quantities::KEYS, names.as_slice());
    let least = least_unknown(alloc, table, known.as_slice(), least)?;
    under_each(
        alloc,
        table,
        FURTHER_PREFIX,
        names.as_slice(),
        &quantity::KEYS,
        least,
    )
}

/// The names of these rows.
fn row_names(all: &[Row; ROWS]) -> ArrayVec<&'static str, ROWS>
    ensures names { map (λ name. name.now) result.items ≡ row_names all.now }
    ensures short { All (λ name. length name.now ≤ 32) result.items }
{
    let mut names = ArrayVec::new();
    for row in all {
        names.push(row.name());
    }
    names
}

/// The names of these quantities.
fn quantity_names(all: &[Quantity; QUANTITIES]) -> ArrayVec<&'static str, QUANTITIES>
    ensures names { map (λ name. name.now) result.items ≡ quantity_names all.now }
    ensures short { All (λ name. length name.now ≤ 32) result.items }
{
    let mut names = ArrayVec::new();
    for quantity in all {
        names.push(quantity.name());
    }
    names
}

/// How many keys the table of quantities has of its own.
const OWN: usize = further_quantities::KEYS.len();

/// How many it has in all: its own, and one for each quantity.
const KNOWN: usize = OWN + QUANTITIES;

/// The keys of a table, and the names of the tables within it.
fn keys_and_names(
    keys: &[&'static str; OWN],
    names: &[&'static str],
) -> ArrayVec<&'static str, KNOWN>
    requires { length names.now ≤ QUANTITIES }
    ensures { result.items ≡ keys.now ++ names.now }
{
    let mut known = ArrayVec::new();
    let _fits = known.try_extend_from_slice(keys);
    let _fits = known.try_extend_from_slice(names);
    known
}

/// The same of the tables at these keys.
fn under_each(
    alloc: Global,
    section: &Section,
    word: &[u8],
    names: &[&str],
    keys: &[&str],
    least: Option<Vec<u8>>,
) -> Result<Option<Vec<u8>>, AllocError>
    requires word { length word.now ≤ 8 }
    requires names { All (λ name. length name.now ≤ 32) names.now }
    ensures { IfOk result (λ path. path_seen path ≡ each_noted (map (λ key. key.now) keys.now) word.now (place_of section.now) (map (λ name. name.now) names.now) (path_seen least)) }
{
    let mut least = least;
    for name in names {
        let prefix = key_prefix(word, name);
        least = under(alloc, section, name, prefix.as_slice(), keys, least)?;
    }
    Ok(least)
}

/// The same of the table at a key.
fn under(
    alloc: Global,
    section: &Section,
    name: &str,
    prefix: &[u8],
    keys: &[&str],
    least: Option<Vec<u8>>,
) -> Result<Option<Vec<u8>>, AllocError>
    ensures { IfOk result (λ path. path_seen path ≡ noted (map (λ key. key.now) keys.now) (place_under (place_of section.now) name.now prefix.now) (path_seen least)) }
{
    least_unknown(alloc, &table_under(section, name, prefix), keys, least)
}

/// The same of the items at a key.
fn in_items(
    alloc: Global,
    values: &[Value],
    word: &[u8],
    keys: &[&str],
    least: Option<Vec<u8>>,
) -> Result<Option<Vec<u8>>, AllocError>
    requires { length word.now ≤ 8 }
    ensures { IfOk result (λ path. path_seen path ≡ noted_items (map (λ key. key.now) keys.now) word.now 1 (items_view values.now) (path_seen least)) }
{
    let mut least = least;
    for (place, value) in values.iter().enumerate() {
        let prefix = item_prefix(word, place + 1);
        let section = Section {
            prefix: prefix.as_slice(),
            table: value.as_table(),
        };
        least = least_unknown(alloc, &section, keys, least)?;
    }
    Ok(least)
}

/// The table at a key.
fn table_under<'a>(section: &Section<'a>, name: &str, prefix: &'a [u8]) -> Section<'a>
    ensures { place_of result ≡ place_under (place_of section.now) name.now prefix.now }
{
    match section.member(name) {
        None => Section {
            prefix,
            table: None,
        },
        Some(value) => Section {
            prefix,
            table: value.as_table(),
        },
    }
}

/// The items at a key.
fn items<'a>(section: &Section<'a>, name: &str) -> &'a [Value]
    ensures { items_view result.now ≡ items_of (get_member name.now (place_of section.now).members) }
{
    match section.member(name) {
        None => &[],
        Some(value) => match value.as_array() {
            None => &[],
            Some(items) => items.as_slice(),
        },
    }
}
