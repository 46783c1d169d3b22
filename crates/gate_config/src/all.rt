//! All keys, table by table.
ghost use Rattle.std.specs.Prelude.{◌≡◌, ◌∷◌, IfOk, option_map};
ghost use Rattle.config_document.specs.Places.{place_of};
ghost use Rattle.gate_config.specs.Beside.{AreLinks, AreParts};
ghost use Rattle.gate_config.specs.Keys.{links_in, part_groups, parts_in, settings_in, setup_in};
ghost use Rattle.settings.specs.Settings.{IsSettings};
ghost use Rattle.settings.specs.Setup.{IsSetup, heading_group, nav_group};
ghost use Rattle.settings.specs.Watch.{alert_group};

use crate::further::{
    ignored_keys, optional_keys, pace_keys, plain_keys, quantities_group, report_keys, serve_keys,
};
use crate::further_quantities::further_quantities;
use crate::gateway::gateway_keys;
use crate::heading::{heading_group, heading_keys};
use crate::heartbeat::heartbeat_keys;
use crate::identity::identity_keys;
use crate::links::{bus_keys, net_keys};
use crate::nav::{nav_group, nav_keys};
use crate::parts::{ais_group, ais_keys, rmc_group, rmc_keys};
use crate::presets::preset_keys;
use crate::routes::route_keys;
use crate::rows::row_keys;
use crate::watch::{alert_group, watch_keys};
use arrayvec::ArrayVec;
use bus_identity::Product;
use claim_table::Preset;
use config_document::{ConfigFault, Section};
use config_values::{Config, Ends, RowConfig};
use network_routes::Routes;
use sentence_text::{Group, Sfi};
use settings::{
    AisConfig, HeadingConfig, NavConfig, Quantities, QuantityConfigs, RmcConfig, Settings, Setup,
    WatchConfig,
};

/// What the gateway says of itself, and the parts beside it.
type Parts = (Product, Option<RmcConfig>, Option<AisConfig>);

/// All that the document says, but for keys that aren't known; further quantities are put into `each`.
#[tactic(auto, unfolding(crate::specs::Keys::setup_in))]
pub(crate) fn all_keys(document: &Section, each: QuantityConfigs) -> Result<Setup, ConfigFault>
    ensures said { result ≡ setup_in (place_of document.now) }
    ensures valid { IfOk result IsSetup }
{
    let settings = setting_keys(document)?;
    let ignore = ignored_keys(document)?;
    let parts = [rmc_group(&settings.rmc), ais_group(&settings.ais)];
    let quantities = further_quantities(document, &settings.config.rows, &parts, each)?;
    let (sources, address) = report_keys(document)?;
    let [rmc, ais] = parts;
    let parts = [quantities_group(&quantities), rmc, ais];
    let plain = plain_keys(document, &settings.config.rows, &parts)?;
    let recording = serve_keys(document)?;
    let plain_every_ms = pace_keys(document)?;
    let optional_sentences = optional_keys(document)?;
    let groups = groups_beside(&plain, &quantities, &settings);
    let heading = heading_keys(document, &settings.config.rows, &groups)?;
    let groups = groups_behind_heading(&heading, groups);
    let nav = nav_keys(document, &settings.config.rows, &groups)?;
    let groups = groups_behind_nav(&nav, groups);
    let watch = watch_keys(document, &settings.config.rows, &groups)?;
    let groups = groups_behind_alerts(&watch, groups);
    let heartbeat = heartbeat_keys(document, &settings.config.rows, &groups)?;
    Ok(Setup {
        settings,
        ignore,
        optional_sentences,
        quantities,
        sources,
        address,
        plain,
        plain_every_ms,
        record: recording,
        heading,
        nav,
        watch,
        heartbeat,
    })
}

/// The groups of plain sentences, of further quantities, and of the parts of the settings.
fn groups_beside(
    plain: &Option<Group>,
    quantities: &Option<Quantities>,
    settings: &Settings,
) -> [Option<Group>; 4]
    ensures { result ≡ plain.now ∷ option_map (λ q. q.group) quantities.now ∷ part_groups settings.now }
{
    [
        *plain,
        quantities_group(quantities),
        rmc_group(&settings.rmc),
        ais_group(&settings.ais),
    ]
}

/// Those, and before them the group of joined headings.
fn groups_behind_heading(
    heading: &Option<HeadingConfig>,
    groups: [Option<Group>; 4],
) -> [Option<Group>; 5]
    ensures { result ≡ heading_group heading.now ∷ groups }
{
    let [plain, quantities, rmc, ais] = groups;
    [heading_group(heading), plain, quantities, rmc, ais]
}

/// Those, and before them the group of the legs of plotters.
fn groups_behind_nav(nav: &Option<NavConfig>, groups: [Option<Group>; 5]) -> [Option<Group>; 6]
    ensures { result ≡ nav_group nav.now ∷ groups }
{
    let [heading, plain, quantities, rmc, ais] = groups;
    [nav_group(nav), heading, plain, quantities, rmc, ais]
}

/// Those, and before them the group of alerts.
fn groups_behind_alerts(watch: &WatchConfig, groups: [Option<Group>; 6]) -> [Option<Group>; 7]
    ensures { result ≡ alert_group watch.now ∷ groups }
{
    let [nav, heading, plain, quantities, rmc, ais] = groups;
    [
        alert_group(watch),
        nav,
        heading,
        plain,
        quantities,
        rmc,
        ais,
    ]
}

/// The settings that the document says.
#[tactic(auto, unfolding(crate::specs::Keys::settings_in))]
fn setting_keys(document: &Section) -> Result<Settings, ConfigFault>
    ensures said { result ≡ settings_in (place_of document.now) }
    ensures valid { IfOk result IsSettings }
{
    let own = gateway_keys(document)?;
    let presets = preset_keys(
        document,
        &Preset {
            address: own.address,
            name: own.name,
        },
    )?;
    let rows = row_keys(document, own.group)?;
    let (net_sources, ends) = link_keys(document, own.sfi)?;
    let (product, rmc, ais) = part_keys(document, &rows)?;
    Ok(Settings {
        config: Config {
            name: own.name,
            address: own.address,
            sfi: own.sfi,
            fast_slots: own.fast_slots,
            iso_slots: own.iso_slots,
            group_slots: own.group_slots,
            ths: own.ths,
            presets,
            rows,
            net_sources,
            ends,
        },
        product,
        rmc,
        ais,
    })
}

/// Whom the network is heard from, and where the links listen and send.
#[tactic(auto, unfolding(crate::specs::Keys::links_in))]
fn link_keys(document: &Section, own: Sfi) -> Result<(ArrayVec<Sfi, 32>, Ends), ConfigFault>
    ensures said { result ≡ links_in own (place_of document.now) }
    ensures valid { IfOk result (AreLinks own) }
{
    let (sources, net_listen, net_send) = net_keys(document, own)?;
    let (bus_listen, bus_send) = bus_keys(document)?;
    let routes = route_keys(document)?;
    let ends = Ends {
        bus_listen,
        bus_send,
        net_listen,
        net: Routes {
            list: routes,
            other: net_send,
        },
    };
    Ok((sources, ends))
}

/// What the gateway says of itself, and the parts beside it.
#[tactic(auto, unfolding(crate::specs::Keys::parts_in))]
fn part_keys(document: &Section, rows: &[RowConfig]) -> Result<Parts, ConfigFault>
    ensures said { result ≡ parts_in rows.now (place_of document.now) }
    ensures valid { IfOk result (AreParts rows.now) }
{
    let product = identity_keys(document)?;
    let rmc = rmc_keys(document, rows)?;
    let ais = ais_keys(document, rows, rmc_group(&rmc))?;
    Ok((product, rmc, ais))
}
