//! The words of a configuration: the names of its tables with what stands before their keys in their paths, and what keys are called by, in
//! whichever tables they stand.

pub(crate) const GATEWAY: &str = "gateway";

pub(crate) const GATEWAY_PREFIX: &[u8] = b"gateway.";

pub(crate) const PRESET: &str = "preset";

pub(crate) const PRESET_PREFIX: &[u8] = b"preset.";

pub(crate) const ROW: &str = "row";

pub(crate) const ROW_PREFIX: &[u8] = b"row.";

pub(crate) const NET: &str = "net";

pub(crate) const NET_PREFIX: &[u8] = b"net.";

pub(crate) const BUS: &str = "bus";

pub(crate) const BUS_PREFIX: &[u8] = b"bus.";

pub(crate) const ROUTE: &str = "route";

pub(crate) const ROUTE_PREFIX: &[u8] = b"route.";

pub(crate) const IDENTITY: &str = "identity";

pub(crate) const IDENTITY_PREFIX: &[u8] = b"identity.";

pub(crate) const RMC: &str = "rmc";

pub(crate) const RMC_PREFIX: &[u8] = b"rmc.";

pub(crate) const AIS: &str = "ais";

pub(crate) const AIS_PREFIX: &[u8] = b"ais.";

pub(crate) const FURTHER: &str = "further";

pub(crate) const FURTHER_PREFIX: &[u8] = b"further.";

pub(crate) const REPORT: &str = "report";

pub(crate) const REPORT_PREFIX: &[u8] = b"report.";

pub(crate) const PLAIN: &str = "plain";

pub(crate) const PLAIN_PREFIX: &[u8] = b"plain.";

pub(crate) const SERVE: &str = "serve";

pub(crate) const SERVE_PREFIX: &[u8] = b"serve.";

pub(crate) const HEADING: &str = "heading";

pub(crate) const HEADING_PREFIX: &[u8] = b"heading.";

pub(crate) const NAV: &str = "nav";

pub(crate) const NAV_PREFIX: &[u8] = b"nav.";

pub(crate) const WATCH: &str = "watch";

pub(crate) const WATCH_PREFIX: &[u8] = b"watch.";

pub(crate) const HEARTBEAT: &str = "heartbeat";

pub(crate) const HEARTBEAT_PREFIX: &[u8] = b"heartbeat.";

pub(crate) const ADDRESS: &str = "address";

pub(crate) const BUS_EVERY_S: &str = "bus_every_s";

pub(crate) const CODE: &str = "code";

pub(crate) const DBT: &str = "dbt";

pub(crate) const EVERY_MS: &str = "every_ms";

pub(crate) const EVERY_S: &str = "every_s";

pub(crate) const FAST_SLOTS: &str = "fast_slots";

pub(crate) const GROUP: &str = "group";

pub(crate) const GROUP_SLOTS: &str = "group_slots";

pub(crate) const HDM: &str = "hdm";

pub(crate) const IGNORE: &str = "ignore";

pub(crate) const ISO_SLOTS: &str = "iso_slots";

pub(crate) const LISTEN: &str = "listen";

pub(crate) const LOAD: &str = "load";

pub(crate) const MODEL: &str = "model";

pub(crate) const NAME: &str = "name";

pub(crate) const OTHERS: &str = "others";

pub(crate) const RECORD: &str = "record";

pub(crate) const SEND: &str = "send";

pub(crate) const SERIAL: &str = "serial";

pub(crate) const SFI: &str = "sfi";

pub(crate) const SLOTS: &str = "slots";

pub(crate) const SOFTWARE: &str = "software";

pub(crate) const SOURCES: &str = "sources";

pub(crate) const TALKER: &str = "talker";

pub(crate) const THS: &str = "ths";

pub(crate) const TIMEOUT_MS: &str = "timeout_ms";

pub(crate) const TWIN_ENGINES: &str = "twin_engines";

pub(crate) const VERSION: &str = "version";

pub(crate) const WATCH_MS: &str = "watch_ms";
