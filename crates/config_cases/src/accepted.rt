//! The settings of accepted files, which `check` doesn't show: each worked out by hand from the table of keys.
use crate::values::ANY;
use config_values::{Config, Ends, RowConfig};
use gate_config::{
    AlertConfig, NavConfig, Quantities, QuantityConfig, Settings, Setup, WatchConfig, read,
    read_all, read_whole,
};
use n2k_id::{Name, Pattern};
use readings::all_rows;
use sentence_text::Group;
use std::alloc::Global;
use std::test::*;

/// A gateway with an address, a NAME and an identifier, and nothing else.
pub(crate) const OWN: &str = r#"gateway.name = "C0328200FFC00001"
gateway.address = 251
gateway.sfi = "II0001"
"#;

/// Whether the keys that have to be there are as they were given, and nothing is said of those beside them.
fn has_usual_keys(config: &Config) -> bool {
    config.name == Name(0xC032_8200_FFC0_0001)
        && config.address == 251
        && config.fast_slots == 64
        && config.iso_slots == 8
        && config.group_slots == 8
        && !config.ths
        && config.presets.is_empty()
        && config.net_sources.is_empty()
}

/// Whether a row is heard from everybody for five seconds, and said by this talker to all.
fn is_usual_row(row: &RowConfig, talker: [u8; 2]) -> bool {
    row.sources.is_empty()
        && row.others
        && row.timeout_ms == 5_000
        && row.talker == talker
        && row.group.as_bytes() == b"NAVD"
}

fn has_usual_rows(config: &Config) -> bool {
    config
        .rows
        .iter()
        .zip(all_rows())
        .all(|(row, which)| is_usual_row(row, which.talker()))
}

fn has_usual_ends(ends: &Ends) -> bool {
    ends.net_listen.as_slice() == b"127.0.0.1:60001".as_slice()
        && ends.net.other.as_slice() == b"127.0.0.1:60002".as_slice()
        && ends.net.list.is_empty()
        && ends.bus_listen.as_slice() == b"127.0.0.1:60101".as_slice()
        && ends.bus_send.as_slice() == b"127.0.0.1:60102".as_slice()
}

/// Whether the gateway is the usual product, and nothing is joined or passed on.
fn is_usual_product(settings: &Settings) -> bool {
    let product = &settings.product;
    product.code == 0
        && product.model.as_slice() == b"shipgate".as_slice()
        && product.software.as_slice() == b"1".as_slice()
        && product.version.as_slice() == b"1".as_slice()
        && product.serial.as_slice() == b"1".as_slice()
        && product.load == 1
        && settings.rmc.is_none()
        && settings.ais.is_none()
}

/// Whether no row has to be said, and no alert is said.
fn is_unwatched(watch: &WatchConfig) -> bool {
    watch.limits.iter().all(|limit| limit.is_none()) && watch.alerts.is_none()
}

/// Whether no further key asks for anything.
fn is_alone(setup: &Setup) -> bool {
    setup.ignore.is_empty()
        && !setup.optional_sentences.rmc
        && setup.optional_sentences.dbt
        && setup.quantities.is_none()
        && !setup.sources
        && !setup.address
        && setup.plain.is_none()
        && setup.plain_every_ms == 0
        && !setup.record
        && setup.heading.is_none()
        && setup.nav.is_none()
        && is_unwatched(&setup.watch)
        && setup.heartbeat.net.is_none()
        && setup.heartbeat.bus_every_s.is_none()
}

fn has_defaults(alloc: Global) -> bool {
    match read_whole(alloc, OWN.as_bytes()) {
        Ok(setup) => {
            has_usual_keys(&setup.settings.config)
                && has_usual_rows(&setup.settings.config)
                && has_usual_ends(&setup.settings.config.ends)
                && is_usual_product(&setup.settings)
                && is_alone(&setup)
        }
        Err(_) => false,
    }
}

/// What the own keys alone configure is the defaults.
#[test]
fn defaults(rt: HostRuntime) {
    assert!(rt; has_defaults(rt.alloc()));
}

/// The same with two presets and a source of the network.
const USUAL: &str = r#"[gateway]
name = "C0328200FFC00001"
address = 251
sfi = "II0001"
[[preset]]
address = 23
name = "C0788C00FFC00005"
[[preset]]
address = 24
name = "C0788C00FFC00006"
[net]
sources = ["II0002"]
"#;

fn has_two_presets(alloc: Global) -> bool {
    match read_all(alloc, USUAL.as_bytes()) {
        Ok(settings) => settings.config.presets.len() == 2,
        Err(_) => false,
    }
}

/// A number in the place of a truth value, behind all that is of the settings.
const NO_TRUTH: &str = r#"gateway.name = "C0328200FFC00001"
gateway.address = 251
gateway.sfi = "II0001"
report.sources = 1
"#;

fn is_refused(alloc: Global) -> bool {
    match read_all(alloc, NO_TRUTH.as_bytes()) {
        Ok(_) => false,
        Err(fault) => match fault.line() {
            Some(line) => line.as_slice() == b"config: kind report.sources".as_slice(),
            None => false,
        },
    }
}

/// The settings alone are those of the whole file, and refused for the same fault.
#[test]
fn settings_alone(rt: HostRuntime) {
    assert!(rt; has_two_presets(rt.alloc()));
    assert!(rt; is_refused(rt.alloc()));
}

const PATTERNS: &str = r#"gateway.name = "C0328200FFC00001"
gateway.address = 251
gateway.sfi = "II0001"
[row.rudder_first]
sources = ["manufacturer=137 class=40 industry=4 arbitrary=1", "C0788C00FFC00005"]
"#;

const STATED: Pattern = Pattern {
    manufacturer: Some(137),
    class: Some(40),
    industry: Some(4),
    arbitrary: Some(true),
    ..ANY
};

fn has_patterns(alloc: Global) -> bool {
    let whole = Pattern::whole(Name(0xC078_8C00_FFC0_0005));
    match read(alloc, PATTERNS.as_bytes()) {
        Ok(config) => config.rows[3].sources.as_slice() == [STATED, whole].as_slice(),
        Err(_) => false,
    }
}

#[test]
fn patterns_state_fields(rt: HostRuntime) {
    assert!(rt; has_patterns(rt.alloc()));
}

const FURTHER: &str = r#"gateway.name = "C0328200FFC00001"
gateway.address = 251
gateway.sfi = "II0001"
bus.ignore = ["class=25", "C0328200FFC00001"]
report.sources = true
report.address = true
plain.group = "PLAN"
plain.every_ms = 60000
serve.record = true
net.rmc = true
net.dbt = false
"#;

const CONVERTERS: Pattern = Pattern {
    class: Some(25),
    ..ANY
};

/// Whether this is what `FURTHER` asks for.
fn is_asked_for(setup: &Setup) -> bool {
    let own = Pattern::whole(Name(0xC032_8200_FFC0_0001));
    setup.ignore.as_slice() == [CONVERTERS, own].as_slice()
        && setup.sources
        && setup.address
        && setup.record
        && setup.quantities.is_none()
        && setup.plain == Group::of(b"PLAN")
        && setup.plain_every_ms == 60_000
        && setup.optional_sentences.rmc
        && !setup.optional_sentences.dbt
}

fn has_further_keys(alloc: Global) -> bool {
    match read_whole(alloc, FURTHER.as_bytes()) {
        Ok(setup) => is_asked_for(&setup),
        Err(_) => false,
    }
}

/// A file with further keys, but for those of further quantities.
#[test]
fn further_keys(rt: HostRuntime) {
    assert!(rt; has_further_keys(rt.alloc()));
}

const WATCH: &str = r#"gateway.name = "C0328200FFC00001"
gateway.address = 251
gateway.sfi = "II0001"
row.heading_true.watch_ms = 2000
row.cross_track.watch_ms = 600000
watch.group = "ALRT"
"#;

/// Whether the first and the last row have to be said, and alerts have the talker that stands where no other was put.
fn are_watched(watch: &WatchConfig) -> bool {
    let others = watch.limits[1..16].iter().all(|limit| limit.is_none());
    watch.limits[0] == Some(2_000)
        && watch.limits[16] == Some(600_000)
        && others
        && is_usual_alert(watch.alerts)
}

fn is_usual_alert(alerts: Option<AlertConfig>) -> bool {
    match alerts {
        Some(alerts) => Some(alerts.group) == Group::of(b"ALRT") && alerts.talker == *b"II",
        None => false,
    }
}

fn has_watch(alloc: Global) -> bool {
    match read_whole(alloc, WATCH.as_bytes()) {
        Ok(setup) => are_watched(&setup.watch),
        Err(_) => false,
    }
}

/// Two rows under watch, and who is told.
#[test]
fn rows_under_watch(rt: HostRuntime) {
    assert!(rt; has_watch(rt.alloc()));
}

/// The group of heartbeats alone, behind the own keys.
const USUAL_BEATS: &str = r#"gateway.name = "C0328200FFC00001"
gateway.address = 251
gateway.sfi = "II0001"
heartbeat.group = "MISC"
"#;

/// Each of their keys.
const BEATS: &str = r#"gateway.name = "C0328200FFC00001"
gateway.address = 251
gateway.sfi = "II0001"
[heartbeat]
group = "BEAT"
every_s = 999
talker = "EI"
bus_every_s = 1
"#;

/// Whether a file says heartbeats so: to this group, with these seconds between two and this talker, and with these on the bus.
fn has_beats(
    alloc: Global,
    file: &str,
    group: &[u8],
    every_s: u32,
    talker: [u8; 2],
    bus_every_s: Option<u32>,
) -> bool {
    match read_whole(alloc, file.as_bytes()) {
        Ok(setup) => match &setup.heartbeat.net {
            Some(net) => {
                Some(net.group) == Group::of(group)
                    && net.every_s == every_s
                    && net.talker == talker
                    && setup.heartbeat.bus_every_s == bus_every_s
            }
            None => false,
        },
        Err(_) => false,
    }
}

/// With their group alone, heartbeats have their defaults.
#[test]
fn heartbeat_keys(rt: HostRuntime) {
    assert!(rt; has_beats(rt.alloc(), USUAL_BEATS, b"MISC", 60, *b"II", None));
    assert!(rt; has_beats(rt.alloc(), BEATS, b"BEAT", 999, *b"EI", Some(1)));
}

/// The group of legs alone, behind the own keys.
const USUAL_LEGS: &str = r#"gateway.name = "C0328200FFC00001"
gateway.address = 251
gateway.sfi = "II0001"
nav.group = "NAVG"
"#;

/// Each of their keys.
const LEGS: &str = r#"gateway.name = "C0328200FFC00001"
gateway.address = 251
gateway.sfi = "II0001"
[nav]
group = "PILT"
slots = 256
sources = ["class=60"]
others = false
timeout_ms = 60000
talker = "EI"
"#;

const PLOTTERS: Pattern = Pattern {
    class: Some(60),
    ..ANY
};

/// Whether legs are as their group alone says.
fn is_usual_nav(nav: &NavConfig) -> bool {
    Some(nav.group) == Group::of(b"NAVG")
        && nav.slots == 16
        && nav.legs.sources.is_empty()
        && nav.legs.others
        && nav.legs.timeout_ms == 2_500
        && nav.legs.talker == *b"GP"
}

/// Whether they are as `LEGS` says.
fn is_named_nav(nav: &NavConfig) -> bool {
    Some(nav.group) == Group::of(b"PILT")
        && nav.slots == 256
        && nav.legs.sources.as_slice() == [PLOTTERS].as_slice()
        && !nav.legs.others
        && nav.legs.timeout_ms == 60_000
        && nav.legs.talker == *b"EI"
}

/// How legs are said that a file configures, where it is accepted.
fn nav_of(alloc: Global, file: &str) -> Option<NavConfig> {
    match read_whole(alloc, file.as_bytes()) {
        Ok(setup) => setup.nav,
        Err(_) => None,
    }
}

fn has_usual_nav(alloc: Global) -> bool {
    match &nav_of(alloc, USUAL_LEGS) {
        Some(nav) => is_usual_nav(nav),
        None => false,
    }
}

fn has_named_nav(alloc: Global) -> bool {
    match &nav_of(alloc, LEGS) {
        Some(nav) => is_named_nav(nav),
        None => false,
    }
}

/// With their group alone, legs have their defaults.
#[test]
fn nav_keys(rt: HostRuntime) {
    assert!(rt; has_usual_nav(rt.alloc()));
    assert!(rt; has_named_nav(rt.alloc()));
}

/// The talker of each quantity, in their order.
const TALKERS: &[u8; 32] = b"IIIIVDWIWIWIYXERERERERIIIIIIIIII";

/// Whether a quantity is taken from everybody for five seconds, and said by this talker.
fn is_usual(quantity: &QuantityConfig, talker: &[u8]) -> bool {
    quantity.sources.is_empty()
        && quantity.others
        && quantity.timeout_ms == 5_000
        && quantity.talker.as_slice() == talker
}

/// How quantities are said that a file configures, where it is accepted.
fn quantities_of(alloc: Global, file: &str) -> Option<Quantities> {
    match read_whole(alloc, file.as_bytes()) {
        Ok(setup) => setup.quantities,
        Err(_) => None,
    }
}

/// The group of quantities alone.
const MACHINERY: &str = r#"gateway.name = "C0328200FFC00001"
gateway.address = 251
gateway.sfi = "II0001"
further.group = "MACH"
"#;

fn are_usual(quantities: &Quantities) -> bool {
    quantities
        .each
        .as_slice()
        .iter()
        .zip(TALKERS.chunks(2))
        .all(|(quantity, talker)| is_usual(quantity, talker))
}

fn has_usual_quantities(alloc: Global) -> bool {
    match &quantities_of(alloc, MACHINERY) {
        Some(quantities) => {
            Some(quantities.group) == Group::of(b"MACH")
                && quantities.slots == 16
                && !quantities.twin_engines
                && are_usual(quantities)
        }
        None => false,
    }
}

/// With their group alone, quantities have their defaults.
#[test]
fn quantities_by_default(rt: HostRuntime) {
    assert!(rt; has_usual_quantities(rt.alloc()));
}

const WATER: &str = r#"gateway.name = "C0328200FFC00001"
gateway.address = 251
gateway.sfi = "II0001"
[further]
group = "MACH"
slots = 3
twin_engines = true
[further.water_first]
sources = ["class=75"]
others = false
timeout_ms = 60000
talker = "TN"
"#;

const TANKS: Pattern = Pattern {
    class: Some(75),
    ..ANY
};

/// Whether a quantity is as `WATER` says of one.
fn is_water(quantity: &QuantityConfig) -> bool {
    quantity.sources.as_slice() == [TANKS].as_slice()
        && !quantity.others
        && quantity.timeout_ms == 60_000
        && quantity.talker == *b"TN"
}

fn has_water(alloc: Global) -> bool {
    match &quantities_of(alloc, WATER) {
        Some(quantities) => {
            let each = quantities.each.as_slice();
            quantities.slots == 3
                && quantities.twin_engines
                && is_water(&each[15])
                && is_usual(&each[14], b"II")
        }
        None => false,
    }
}

/// What is said of a quantity is its own, by its place among them.
#[test]
fn a_quantity_by_its_name(rt: HostRuntime) {
    assert!(rt; has_water(rt.alloc()));
}
