//! How the gateway of a case is configured, and how it starts.
use arrayvec::ArrayVec;
use claim_table::Preset;
use config_values::{Config, Ends, RowConfig};
use gate_core::{Gateway, Outbox};
use n2k_id::Name;
use network_routes::{Address, Routes};
use readings::{ROWS, Row};
use sentence_text::Sfi;
use std::alloc::Global;
use std::test::Fail;

/// The NAMEs of the devices at 23 and 24.
const KNOWN: [(u8, u64); 2] = [(23, 0xC078_8C00_FFC0_0005), (24, 0xC078_8C00_FFC0_0006)];

fn endpoint(text: &[u8]) -> Address {
    let mut address = ArrayVec::new();
    let _fits = address.try_extend_from_slice(text);
    address
}

/// The rows, of which headings and fixes have their usual talkers.
fn rows() -> [RowConfig; ROWS] {
    let mut rows = std::array::from_fn(|_| RowConfig::default());
    rows[Row::HeadingTrue as usize].talker = Row::HeadingTrue.talker();
    rows[Row::Gnss as usize].talker = Row::Gnss.talker();
    rows
}

/// Two devices are known, and the network is heard from nobody.
fn config() -> Config {
    let mut presets = ArrayVec::new();
    for (address, name) in KNOWN {
        let _fits = presets.try_push(Preset {
            address,
            name: Name(name),
        });
    }
    Config {
        name: Name(0xC032_8200_FFC0_0001),
        address: 251,
        sfi: Sfi::of(b"II0001").unwrap_or_default(),
        fast_slots: 64,
        iso_slots: 8,
        group_slots: 8,
        ths: false,
        presets,
        rows: rows(),
        net_sources: ArrayVec::new(),
        ends: Ends {
            bus_listen: endpoint(b"127.0.0.1:60101"),
            bus_send: endpoint(b"127.0.0.1:60102"),
            net_listen: endpoint(b"127.0.0.1:60001"),
            net: Routes::all_to(&endpoint(b"127.0.0.1:60002")),
        },
    }
}

/// A gateway that started at this moment.
pub(crate) fn started(alloc: Global, moment: u64) -> Result<Gateway, Fail> {
    let config = config();
    if !config.valid() {
        return Err("no configuration".into());
    }
    let mut gateway = Gateway::new(alloc, &config)?;
    let mut out = Outbox::new();
    gateway.start(moment, &mut out);
    Ok(gateway)
}
