//! How each of the quantities is said.
ghost use Rattle.std.specs.Prelude.{◌≡◌, ◌<◌, IfOk, length, replicate, set, slice_index_or};
ghost use Rattle.quantities.specs.About.{number_of, quantities_count};
ghost use Rattle.settings.specs.Setup.{usual_quantity};

use crate::quantity_config::QuantityConfig;
use quantities::{QUANTITIES, Quantity};
use std::alloc::{AllocError, Global};
use std::marker::Model;

/// Whom each quantity is taken from, and who says it: one for each, in the order of the quantities. They are on the heap, since all of them
/// together are large.
#[derive(Clone, Drop)]
pub struct QuantityConfigs {
    each: Vec<QuantityConfig>,
}

impl Model for QuantityConfigs {
    ghost use Rattle.std.specs.Prelude.{◌≡◌, List, length};
    ghost use Rattle.quantities.specs.About.{quantities_count};
    ghost use Rattle.settings.specs.declared.quantity_config.QuantityConfig.{QuantityConfig};

    ghost Value = { List QuantityConfig };

    ghost view = { λ q. q.each.items };

    ghost invariant = { λ q. length q.each.items ≡ quantities_count };
}

impl QuantityConfigs {
    /// Each of them as it is where nothing was put.
    pub fn new(alloc: Global) -> Result<QuantityConfigs, AllocError>
        ensures { IfOk result (λ q. q ≡ replicate quantities_count usual_quantity) }
    {
        let mut each = Vec::with_capacity(alloc, QUANTITIES)?;
        for _ in 0..QUANTITIES {
            each.push(QuantityConfig::default())?;
        }
        Ok(QuantityConfigs { each })
    }

    /// Puts how a quantity is taken and said.
    pub fn set(&mut self, quantity: Quantity, config: QuantityConfig)
        ensures { self.new ≡ set self.old (number_of quantity) config }
    {
        self.each[quantity.number()] = config;
    }

    /// How a quantity is taken and said.
    pub fn get(&self, quantity: Quantity) -> &QuantityConfig
        ensures value { result.now ≡ slice_index_or self.now (number_of quantity) result.now }
        ensures within { number_of quantity < length self.now }
    {
        &self.each[quantity.number()]
    }

    /// All of them, in the order of the quantities.
    pub fn as_slice(&self) -> &[QuantityConfig]
        ensures value { result.now ≡ self.now }
        ensures count { length self.now ≡ quantities_count }
    {
        self.each.as_slice()
    }
}
