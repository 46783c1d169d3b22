//! What the gateway keeps before it starts.
ghost use Rattle.std.specs.Prelude.{◌≡◌, ◌<◌, IfOk};
ghost use Rattle.history.specs.Settings.{rule_at};
ghost use Rattle.gate_model.specs.Machine.{opened_machine};
ghost use Rattle.gate_model.specs.Net.{timeouts};
ghost use Rattle.config_values.specs.Configs.{IsConfig};
ghost use Rattle.config_values.specs.Settings.{settings_by};

use crate::addresses::Addresses;
use arrayvec::ArrayVec;
use claim_table::ClaimFault;
use config_values::{Config, SelectiveConfig};
use fast_packet::FastAssembler;
use history::OptionalSentences;
use iso_transport::IsoAssembler;
use n2k_id::Pattern;
use readings::ROWS;
use row_traffic::network::Network;
use row_traffic::rows::row_at;
use row_traffic::said::Said;
use std::alloc::{AllocError, Global};

/// A copy of the configuration, beside the devices that no row is taken from and the sentences that are read by choice.
#[tactic(auto, using(std::proofs::lemmas::List::Elements::same_from_all_zip))]
pub(crate) fn copy_of(
    config: &Config,
    ignored: &ArrayVec<Pattern, 16>,
    optional: OptionalSentences,
) -> Result<SelectiveConfig, AllocError>
    ensures { IfOk result (λ copy. copy ≡ record { base = config.now; ignored = ignored.now; optional = optional }) }
{
    Ok(SelectiveConfig {
        base: config.clone()?,
        ignored: ignored.clone()?,
        optional,
    })
}

/// The addresses of the bus as they are configured.
#[tactic(auto, unfolding(config_values::specs::Settings::settings_ignoring, claim_table::specs::Claims::claims_at_start))]
pub(crate) fn addresses_of(alloc: Global, config: &SelectiveConfig) -> Result<Addresses, AllocError>
    requires { IsConfig config.now.base }
    ensures { IfOk result (λ a. a ≡ (opened_machine (settings_by config.now)).addresses) }
{
    match Addresses::new(
        alloc,
        config.base.name,
        config.base.address,
        config.base.presets.as_slice(),
    ) {
        Ok(addresses) => Ok(addresses),
        Err(ClaimFault::Memory(fault)) => Err(fault),
        // can't be: no two presets of a configuration stand for one address or NAME, and none for the gateway's.
        Err(ClaimFault::PresetTwice | ClaimFault::OwnTaken) => Err(AllocError),
    }
}

/// No message is in the making. What a gateway opens comes in pairs: each part that is there is let go where a later one has no memory, and each
/// such way out costs the prover.
pub(crate) fn assemblers_of(
    alloc: Global,
    config: &SelectiveConfig,
) -> Result<(FastAssembler, IsoAssembler), AllocError>
    ensures { IfOk result (λ a. (a.0 ≡ (opened_machine (settings_by config.now)).fast) × (a.1 ≡ (opened_machine (settings_by config.now)).sessions)) }
{
    let fast = fast_of(alloc, config)?;
    Ok((fast, sessions_of(alloc, config)?))
}

/// No fast packet is in the making.
#[tactic(auto, unfolding(config_values::specs::Settings::settings_ignoring))]
fn fast_of(alloc: Global, config: &SelectiveConfig) -> Result<FastAssembler, AllocError>
    ensures { IfOk result (λ a. a ≡ (opened_machine (settings_by config.now)).fast) }
{
    FastAssembler::new(alloc, config.base.fast_slots)
}

/// No session of the transport protocol is open.
#[tactic(auto, unfolding(config_values::specs::Settings::settings_ignoring))]
fn sessions_of(alloc: Global, config: &SelectiveConfig) -> Result<IsoAssembler, AllocError>
    ensures { IfOk result (λ a. a ≡ (opened_machine (settings_by config.now)).sessions) }
{
    IsoAssembler::new(alloc, config.base.iso_slots)
}

/// Nothing was said or heard.
pub(crate) fn traffic_of(
    alloc: Global,
    config: &SelectiveConfig,
) -> Result<(Said, Network), AllocError>
    ensures { IfOk result (λ t. (t.0 ≡ (opened_machine (settings_by config.now)).said) × (t.1 ≡ (opened_machine (settings_by config.now)).network)) }
{
    let said = said_of(alloc, config)?;
    Ok((said, network_of(alloc, config)?))
}

/// Nothing was said.
fn said_of(alloc: Global, config: &SelectiveConfig) -> Result<Said, AllocError>
    ensures { IfOk result (λ s. s ≡ (opened_machine (settings_by config.now)).said) }
{
    Said::new(alloc, &timeouts_of(config))
}

/// Nothing was heard.
#[tactic(auto, unfolding(config_values::specs::Settings::settings_ignoring))]
fn network_of(alloc: Global, config: &SelectiveConfig) -> Result<Network, AllocError>
    ensures { IfOk result (λ n. n ≡ (opened_machine (settings_by config.now)).network) }
{
    let timeouts = timeouts_of(config);
    Network::new(
        alloc,
        config.base.group_slots,
        config.base.net_sources.len() as u16,
        &timeouts,
    )
}

/// How long a source counts in each row, in milliseconds.
fn timeouts_of(config: &SelectiveConfig) -> [u32; ROWS]
    ensures { result ≡ timeouts (settings_by config.now) }
{
    let mut timeouts = [0; ROWS];
    for row in 0..ROWS {
        timeouts[row] = timeout_at(config, row);
    }
    timeouts
}

fn timeout_at(config: &SelectiveConfig, row: usize) -> u32
    requires { row < ROWS }
    ensures { result ≡ (rule_at (settings_by config.now).rows row).timeout }
{
    row_at(config, row).timeout_ms
}
