//! How the gateway is configured that takes the made-up input.
ghost use Rattle.std.specs.Prelude.{◌≡◌, ◌≤◌, ◌∷◌, [], All, codes, length, map};
ghost use Rattle.sentence_text.specs.Names.{IsSfi};
ghost use Rattle.config_values.specs.Configs.{AreEnds, IsConfig};
ghost use Rattle.config_values.specs.Endpoints.{IsEndpoint};
ghost use Rattle.config_values.specs.Rows.{IsRow};
ghost use Rattle.config_values.specs.Settings.{rule_of_row, settings_of};
ghost use Rattle.demo.specs.Setup.{demo_settings, row_said};

use arrayvec::ArrayVec;
use config_values::{Config, Ends, RowConfig, USUAL_TIMEOUT_MS};
use n2k_id::Name;
use network_routes::{Address, Routes};
use readings::{ROWS, Row, all_rows};
use sentence_text::{Group, Sfi};

/// As a configuration of the least keys has it, with room for as many fast packets as there can be.
pub(crate) fn demo_config() -> Config
    ensures valid { IsConfig result }
    ensures settings { settings_of result ≡ demo_settings }
{
    Config {
        name: Name(0xC032_8200_FFC0_0001),
        address: 251,
        sfi: sfi(b"II0001"),
        fast_slots: 256,
        iso_slots: 8,
        group_slots: 8,
        ths: false,
        presets: ArrayVec::new(),
        rows: rows_of(all_rows()),
        net_sources: net_sources(),
        ends: ends(),
    }
}

fn sfi(text: &[u8]) -> Sfi
    requires { IsSfi text.now }
    ensures { result ≡ text.now }
{
    Sfi::of(text).unwrap()
}

/// Whom the gateway would hear from the network.
fn net_sources() -> ArrayVec<Sfi, 32>
    ensures { result.items ≡ codes "II0002" ∷ [] }
{
    let mut sources = ArrayVec::new();
    let _fits = sources.try_push(sfi(b"II0002"));
    sources
}

/// These rows, each said by its own talker.
fn rows_of(all: &[Row; ROWS]) -> [RowConfig; ROWS]
    ensures valid { All IsRow result }
    ensures said { map (rule_of_row []) result ≡ map row_said all.now }
{
    let mut rows = ArrayVec::new();
    for row in all {
        rows.push(row_said(*row));
    }
    match rows.into_inner() {
        Ok(rows) => rows,
        Err(_) => unreachable!(),
    }
}

/// A row that is taken from all alike, and said by its own talker.
fn row_said(row: Row) -> RowConfig
    ensures valid { IsRow result }
    ensures said { rule_of_row [] result ≡ row_said row }
{
    RowConfig {
        sources: ArrayVec::new(),
        others: true,
        timeout_ms: USUAL_TIMEOUT_MS,
        talker: row.talker(),
        group: Group::of(b"NAVD").unwrap(),
    }
}

/// Where links would listen and send: the gateway of this input has none.
fn ends() -> Ends
    ensures { AreEnds result }
{
    Ends {
        bus_listen: endpoint(b"127.0.0.1:60101"),
        bus_send: endpoint(b"127.0.0.1:60102"),
        net_listen: endpoint(b"127.0.0.1:60001"),
        net: Routes::all_to(&endpoint(b"127.0.0.1:60002")),
    }
}

fn endpoint(text: &[u8]) -> Address
    requires form { IsEndpoint text.now }
    requires length { length text.now ≤ 64 }
    ensures { IsEndpoint result.items }
{
    let mut address = ArrayVec::new();
    let _fits = address.try_extend_from_slice(text);
    address
}
