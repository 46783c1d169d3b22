//! RMC as a part beside the gateway.
ghost use Rattle.std.specs.Prelude.{◌≡◌, IfOk};
ghost use Rattle.config_values.specs.Rows.{IsTalker};
ghost use Rattle.history.specs.Settings.{Settings};
ghost use Rattle.parts.specs.PartSteps.{IsOpened};
ghost use Rattle.joined_rmc.specs.RmcPart.{joining_gives, joining_stands, rmc_asked, rmc_rule_of, rmc_utters, timeouts_of};

use crate::rmc_join::RmcJoin;
use config_values::{Config, RowConfig};
use parts::{Part, Step, Stream, Streamed};
use readings::ROWS;
use sentence_text::Group;
use settings::{RmcConfig, Setup};
use std::alloc::{AllocError, Global};

/// The place for RMC: a datagram of its own stream.
pub type RmcPlace = Streamed<0>;

/// RMC, and the transmission group that it goes to.
#[derive(Drop)]
pub struct Joining {
    group: Group,
    join: RmcJoin,
}

impl Joining {
    /// With nothing joined yet.
    fn new(rmc: &RmcConfig, config: &Config) -> Joining
        requires { IsTalker rmc.now.talker }
        ensures { (c : Settings) → IsOpened joining_stands (rmc_rule_of config.now rmc.now) c result }
    {
        Joining {
            group: rmc.group,
            join: RmcJoin::new(rmc, config.sfi, &timeouts_of(&config.rows)),
        }
    }
}

impl Part<RmcPlace> for Joining {
    ghost use Rattle.joined_rmc.specs.RmcOut.{RmcRule};

    ghost Rule = { RmcRule };

    ghost asked = { rmc_asked };

    ghost stands = { joining_stands };

    ghost gives = { joining_gives };

    ghost utters = { rmc_utters };

    fn opened(_alloc: Global, setup: &Setup) -> Result<Option<Joining>, AllocError> {
        let settings = &setup.settings;
        match &settings.rmc {
            Some(rmc) => Ok(Some(Joining::new(rmc, &settings.config))),
            None => Ok(None),
        }
    }

    fn after(&mut self, step: &Step<'_>, place: &mut RmcPlace) -> bool {
        place.stream = Some(Stream::Rmc);
        let datagram = place.emits.post(self.group);
        let said = self
            .join
            .after(step.gateway, step.outbox, &mut datagram.packet);
        if !said {
            place.emits.clear();
        }
        said
    }
}

/// How long a source of each row counts, in milliseconds.
fn timeouts_of(rows: &[RowConfig; ROWS]) -> [u32; ROWS]
    ensures { result ≡ timeouts_of rows.now }
{
    let mut timeouts = [0; ROWS];
    for row in 0..ROWS {
        timeouts[row] = rows[row].timeout_ms;
    }
    timeouts
}
