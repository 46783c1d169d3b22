//! A datagram of the network (IEC 61162-450).
ghost use Rattle.std.specs.Prelude.{◌≡◌, ◌≤◌, length};
ghost use Rattle.claim_table.specs.Claims.{is_ready};
ghost use Rattle.datagram450.specs.Datagram.{read};
ghost use Rattle.gate_model.specs.NetLines.{datagram_after, datagram_emits};
ghost use Rattle.gate_model.specs.MachineSteps.{datagram_here};
ghost use Rattle.config_values.specs.Settings.{settings_by};
ghost use Rattle.row_traffic.specs.NetCalls.{IsHeardBy};
ghost use Rattle.gate_core.specs.Steps.{Stays, by_keys};
ghost use Rattle.gate_outbox.specs.Output.{and_told, most_told};

use crate::state::State;
use config_values::SelectiveConfig;
use gate_outbox::StepEmits;
use row_traffic::network::{Came, Hearing};

impl State {
    /// Takes a datagram.
    pub(crate) fn datagram(&mut self, bytes: &[u8], moment: u64, out: &mut StepEmits)
        requires stays { Stays self.old }
        ensures after { self.new ≡ (datagram_here by_keys self.old moment bytes.now).after }
        ensures emits { out.new ≡ and_told most_told out.old (datagram_here by_keys self.old moment bytes.now).told }
    {
        let came = self.came(moment);
        self.hear(came, bytes, out);
    }

    /// A datagram that comes at this moment.
    fn came(&self, moment: u64) -> Came
        ensures { result ≡ record { moment = moment; ready = is_ready self.now.addresses.claims moment; own = self.now.addresses.claims.own } }
    {
        Came {
            moment,
            ready: self.is_ready(moment),
            own: self.own(),
        }
    }

    /// Hears a datagram that came so.
    fn hear(&mut self, came: Came, bytes: &[u8], out: &mut StepEmits)
        requires stays { Stays self.old }
        ensures after { self.new ≡ record self.old {
          network =
              datagram_after by_keys.groups self.old.settings came.moment came.ready self.old.network (read bytes.now);
        } }
        ensures emits { out.new ≡ and_told most_told out.old
            (datagram_emits by_keys.groups self.old.settings came.moment came.ready came.own self.old.network (read bytes.now)) }
    {
        let hearing = hearing_of(&self.config, came);
        self.network.datagram(&hearing, bytes, out);
    }
}

/// Whom the gateway hears, as it is configured.
#[tactic(auto, unfolding(config_values::specs::Settings::settings_ignoring))]
fn hearing_of(config: &SelectiveConfig, came: Came) -> Hearing<'_>
    ensures heard { IsHeardBy (settings_by config.now) result }
    ensures few { length result.sources.now ≤ 254 }
    ensures came { result.came ≡ came }
{
    Hearing {
        sfi: config.base.sfi,
        sources: config.base.net_sources.as_slice(),
        optional: config.optional,
        came,
    }
}
