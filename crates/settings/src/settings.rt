//! The settings of a gateway.

use crate::ais::AisConfig;
use crate::rmc::RmcConfig;
use bus_identity::Product;
use config_values::Config;

/// How the gateway is configured, what it says of itself, and how RMC and reports of ships are passed on.
#[derive(Clone, Drop)]
pub struct Settings {
    /// The gateway itself.
    pub config: Config,
    /// What it says of itself on the bus.
    pub product: Product,
    /// How RMC is said; none: it isn't.
    pub rmc: Option<RmcConfig>,
    /// How reports of ships around are passed on; none: they aren't.
    pub ais: Option<AisConfig>,
}
