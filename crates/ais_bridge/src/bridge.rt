//! The bridge.
ghost use Rattle.std.specs.Prelude.{◌≡◌, ◌<◌, ◌≤◌, IfOk};
ghost use Rattle.std.specs.Int.{IsInRange};
ghost use Rattle.gate_outbox.specs.Output.{emits_of, no_emits};
ghost use Rattle.bus_listener.specs.Steps.{IsEventValid, entry_of};
ghost use Rattle.ais_bridge.specs.AisKept.{ais_opened};
ghost use Rattle.ais_bridge.specs.Promises.{IsAisOpening, IsAisStep, step_by};

use bus_listener::{BusListener, Gateway};
use gate_events::Event;
use gate_outbox::Emits;
use sentence_text::{Group, Sfi};
use settings::AisConfig;
use std::alloc::{AllocError, Global};
use std::marker::Model;

/// The most reports of one event: one for each of 256 messages in the making, and those of a frame, of which there are few.
pub(crate) const MOST_REPORTS: usize = 299;

/// What the bridge leaves at an event: at most 300 emits, of which at most one is a datagram.
pub type AisEmits = Emits<MOST_REPORTS>;

/// What says the reports of ships around.
#[derive(Drop)]
pub struct AisBridge {
    pub(crate) group: Group,
    pub(crate) sfi: Sfi,
    /// The reports in the making.
    pub(crate) reports: BusListener,
    /// How many lines were said, modulo [`tag_block::MOST_COUNT`].
    pub(crate) lines: u16,
}

impl Model for AisBridge {
    ghost use Rattle.std.specs.Prelude.{◌<◌, ◌≤◌};
    ghost use Rattle.tag_block.specs.Tag.{most_count};
    ghost use Rattle.ais_bridge.specs.AisKept.{AisKept};

    ghost Value = { AisKept };

    ghost view = { λ b. record { group = b.group; sfi = b.sfi; slots = b.reports; lines = b.lines } };

    ghost invariant = { λ b. (b.reports.limit ≤ 256) × (b.lines < most_count) };
}

impl AisBridge {
    /// A bridge of this configuration, by the system function identifier of a gateway. Who holds an address is asked of the gateway.
    pub fn new(alloc: Global, config: &AisConfig, sfi: Sfi) -> Result<AisBridge, AllocError>
        requires { IsInRange 1 256 config.now.slots }
        ensures value { IfOk result (λ b. b ≡ ais_opened config.now sfi) }
        ensures history { IfOk result (IsAisOpening config.now sfi) }
    {
        let reports = BusListener::new(alloc, config.slots)?;
        Ok(AisBridge {
            group: config.group,
            sfi,
            reports,
            lines: 0,
        })
    }

    /// Takes an event that the gateway has taken in its last step.
    pub fn after(&mut self, gateway: &Gateway, event: &Event<'_>, emits: &mut AisEmits)
        requires valid { IsEventValid event.now }
        requires empty { emits.old ≡ no_emits }
        ensures after { self.new ≡ (step_by gateway.now self.old (entry_of event.now)).after }
        ensures emits { emits.new ≡ (step_by gateway.now self.old (entry_of event.now)).emits }
        ensures history { IsAisStep gateway.now (entry_of event.now) self.old self.new (emits_of emits.new) }
    {
        let _ordered = self.reports.count();
        self.step(gateway, event, emits);
    }
}
