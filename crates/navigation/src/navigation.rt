//! Plotters beside the gateway.
ghost use Rattle.std.specs.Prelude.{◌≡◌, IfOk};
ghost use Rattle.std.specs.Int.{IsInRange};
ghost use Rattle.gate_outbox.specs.Output.{emits_of, no_emits};
ghost use Rattle.settings.specs.Setup.{IsQuantity};
ghost use Rattle.bus_listener.specs.Steps.{IsEventValid, entry_of};
ghost use Rattle.navigation.specs.Kept.{nav_opened};
ghost use Rattle.navigation.specs.NavRule.{nav_rule};
ghost use Rattle.navigation.specs.Promises.{IsNavOpening, IsNavStep};

use crate::course::Courses;
use arrayvec::ArrayVec;
use bus_listener::{BusListener, Gateway};
use gate_events::Event;
use gate_outbox::Emits;
use n2k_id::Pattern;
use n2k_id::address::ADDRESSES;
use sentence_text::Sfi;
use settings::NavConfig;
use source_choice::Choice;
use std::alloc::{AllocError, Global};
use std::marker::Model;

/// The most reports of one event: one for each of 256 legs in the making, two of a frame, and one of the leg that it completes.
pub(crate) const MOST_REPORTS: usize = 259;

/// What an event leaves: reports, and a datagram behind them.
pub type NavEmits = Emits<MOST_REPORTS>;

/// What is kept of plotters.
#[derive(Drop)]
pub struct Navigation {
    pub(crate) config: NavConfig,
    /// The devices that no leg is taken from, though they be listed or others be taken.
    pub(crate) ignored: ArrayVec<Pattern, 16>,
    /// The system function identifier by which the gateway speaks.
    pub(crate) sfi: Sfi,
    /// Hears PGN 129284, which comes in fast packets, and PGN 129283, which comes in single frames.
    pub(crate) listener: BusListener,
    /// When each source said a leg last.
    pub(crate) choice: Choice,
    /// Where each source goes.
    pub(crate) courses: Courses,
    /// How many lines were said, modulo [`tag_block::MOST_COUNT`].
    pub(crate) lines: u16,
}

impl Model for Navigation {
    ghost use Rattle.std.specs.Prelude.{◌≡◌, ◌<◌, ◌≤◌, length};
    ghost use Rattle.claim_table.specs.Claims.{places};
    ghost use Rattle.tag_block.specs.Tag.{most_count};
    ghost use Rattle.settings.specs.Setup.{IsQuantity};
    ghost use Rattle.navigation.specs.Kept.{NavKept};
    ghost use Rattle.navigation.specs.NavRule.{nav_rule};

    ghost Value = { NavKept };

    ghost view = { λ n. record {
      rule = nav_rule n.ignored.items n.config;
      sfi = n.sfi;
      slots = n.listener;
      choices = n.choice;
      courses = n.courses;
      lines = n.lines;
    } };

    ghost invariant = { λ n. IsQuantity n.config.legs × (length n.config.legs.sources.items < 255) × (n.listener.limit ≤ 256) × (n.choice.sources ≡ places) × (length n.choice.subjects ≡ 1)
        × (n.lines < most_count) };
}

impl Navigation {
    /// By this configuration, with the legs of none of the devices that the patterns match, and said by the system function identifier of a gateway. Who
    /// holds an address is asked of the gateway.
    pub fn new(
        alloc: Global,
        config: &NavConfig,
        ignored: &ArrayVec<Pattern, 16>,
        sfi: Sfi,
    ) -> Result<Navigation, AllocError>
        requires legs { IsQuantity config.now.legs }
        requires slots { IsInRange 1 256 config.now.slots }
        ensures value { IfOk result (λ n. n ≡ nav_opened (nav_rule ignored.now.items config.now) sfi) }
        ensures history { IfOk result (IsNavOpening (nav_rule ignored.now.items config.now) sfi) }
    {
        let listener = BusListener::new(alloc, config.slots)?;
        let choice = Choice::new(alloc, ADDRESSES as u16, &[config.legs.timeout_ms])?;
        let courses = Courses::new(alloc)?;
        let config = copy_of(config)?;
        let ignored = patterns_of(ignored)?;
        Ok(Navigation {
            config,
            ignored,
            sfi,
            listener,
            choice,
            courses,
            lines: 0,
        })
    }

    /// Takes an event that the gateway has taken in its last step: what is told of legs in the making and of frames is in `emits`, and behind it the datagram
    /// of a leg.
    pub fn after(&mut self, gateway: &Gateway, event: &Event<'_>, emits: &mut NavEmits)
        requires valid { IsEventValid event.now }
        requires empty { emits.old ≡ no_emits }
        ensures history { IsNavStep gateway.now (entry_of event.now) self.old self.new (emits_of emits.new) }
    {
        self.hear(gateway, event, emits);
    }
}

#[tactic(auto, using(std::proofs::lemmas::List::Elements::same_from_all_zip))]
fn copy_of(config: &NavConfig) -> Result<NavConfig, AllocError>
    ensures { IfOk result (λ copy. copy ≡ config.now) }
{
    config.clone()
}

#[tactic(auto, using(std::proofs::lemmas::List::Elements::same_from_all_zip))]
fn patterns_of(patterns: &ArrayVec<Pattern, 16>) -> Result<ArrayVec<Pattern, 16>, AllocError>
    ensures { IfOk result (λ copy. copy ≡ patterns.now) }
{
    patterns.clone()
}
