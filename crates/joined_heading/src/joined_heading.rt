//! Joined headings beside the gateway.
ghost use Rattle.std.specs.Prelude.{◌≡◌, IfOk};
ghost use Rattle.gate_outbox.specs.Output.{and_left, emits_of, no_emits};
ghost use Rattle.settings.specs.Setup.{IsQuantity};
ghost use Rattle.parts.specs.Picked.{last_picked};
ghost use Rattle.bus_listener.specs.Steps.{IsEventValid, entry_of};
ghost use Rattle.joined_heading.specs.HeadingRule.{heading_rule};
ghost use Rattle.joined_heading.specs.Kept.{heading_opened, most_told};
ghost use Rattle.joined_heading.specs.Promises.{IsHeadingOpening, IsHeadingStep};

use arrayvec::ArrayVec;
use bus_listener::{BusListener, Gateway};
use gate_events::Event;
use gate_outbox::Emits;
use joined_rmc::LastOfRow;
use n2k_id::Pattern;
use n2k_id::address::ADDRESSES;
use parts::Outbox;
use sentence_text::Sfi;
use settings::HeadingConfig;
use source_choice::Choice;
use std::alloc::{AllocError, Global};
use std::marker::Model;

/// The most reports of one event: two of a frame, and one of the message that it completes.
pub(crate) const MOST_REPORTS: usize = 3;

/// What an event leaves: reports, and a datagram behind them.
pub type HeadingEmits = Emits<MOST_REPORTS>;

/// What is kept of joined headings.
#[derive(Drop)]
pub struct JoinedHeading {
    pub(crate) config: HeadingConfig,
    /// The devices that no variation is taken from, though they be listed or others be taken.
    pub(crate) ignored: ArrayVec<Pattern, 16>,
    /// The system function identifier by which the gateway speaks.
    pub(crate) sfi: Sfi,
    /// Hears PGN 127258, which comes in single frames.
    pub(crate) listener: BusListener,
    /// What each source said last of the variation.
    pub(crate) choice: Choice,
    /// The last variation that was selected.
    pub(crate) variation: LastOfRow,
    /// The last true heading that the gateway selected.
    pub(crate) measured: LastOfRow,
    /// How many lines were said, modulo [`tag_block::MOST_COUNT`].
    pub(crate) lines: u16,
}

impl Model for JoinedHeading {
    ghost use Rattle.std.specs.Prelude.{◌≡◌, ◌<◌, length};
    ghost use Rattle.claim_table.specs.Claims.{places};
    ghost use Rattle.tag_block.specs.Tag.{most_count};
    ghost use Rattle.settings.specs.Setup.{IsQuantity};
    ghost use Rattle.parts.specs.Picked.{IsMessageValid};
    ghost use Rattle.joined_heading.specs.HeadingRule.{heading_rule};
    ghost use Rattle.joined_heading.specs.Kept.{HeadingKept};

    ghost Value = { HeadingKept };

    ghost view = { λ j. record {
      rule = heading_rule j.ignored.items j.config;
      sfi = j.sfi;
      slots = j.listener;
      choices = j.choice;
      variation = j.variation;
      measured = j.measured;
      lines = j.lines;
    } };

    ghost invariant = { λ j. IsQuantity j.config.variation × (j.listener.limit ≡ 0) × (j.choice.sources ≡ places) × (length j.choice.subjects ≡ 1)
        × IsMessageValid j.variation.message × IsMessageValid j.measured.message × (j.lines < most_count) };
}

impl JoinedHeading {
    /// By this configuration, with the variation of none of the devices that the patterns match, and said by the system function identifier of a
    /// gateway. A true heading of that counts so many milliseconds. Who holds an address is asked of the gateway.
    pub fn new(
        alloc: Global,
        config: &HeadingConfig,
        ignored: &ArrayVec<Pattern, 16>,
        sfi: Sfi,
        measured_timeout: u32,
    ) -> Result<JoinedHeading, AllocError>
        requires { IsQuantity config.now.variation }
        ensures value { IfOk result (λ j. j ≡ heading_opened (heading_rule ignored.now.items config.now) sfi measured_timeout) }
        ensures history { IfOk result (IsHeadingOpening (heading_rule ignored.now.items config.now) sfi measured_timeout) }
    {
        let listener = BusListener::new(alloc, 0)?;
        let timeout = config.variation.timeout_ms;
        let choice = Choice::new(alloc, ADDRESSES as u16, &[timeout])?;
        let config = copy_of(config)?;
        let ignored = patterns_of(ignored)?;
        Ok(JoinedHeading {
            config,
            ignored,
            sfi,
            listener,
            choice,
            variation: LastOfRow::new(timeout),
            measured: LastOfRow::new(measured_timeout),
            lines: 0,
        })
    }

    /// Takes an event that the gateway has taken in its last step, which left what is in the outbox: what is told of a frame of the variation is in
    /// `emits`, and behind it the datagram of a magnetic heading.
    pub fn after(
        &mut self,
        gateway: &Gateway,
        outbox: &Outbox,
        event: &Event<'_>,
        emits: &mut HeadingEmits,
    )
        requires valid { IsEventValid event.now }
        requires empty { emits.old ≡ no_emits }
        ensures history { IsHeadingStep gateway.now outbox.now (entry_of event.now) self.old self.new (emits_of emits.new) }
    {
        self.hear(gateway, event, emits);
        self.join(gateway, outbox, emits);
    }
}

#[tactic(auto, using(std::proofs::lemmas::List::Elements::same_from_all_zip))]
fn copy_of(config: &HeadingConfig) -> Result<HeadingConfig, AllocError>
    ensures { IfOk result (λ copy. copy ≡ config.now) }
{
    config.clone()
}

#[tactic(auto, using(std::proofs::lemmas::List::Elements::same_from_all_zip))]
fn patterns_of(patterns: &ArrayVec<Pattern, 16>) -> Result<ArrayVec<Pattern, 16>, AllocError>
    ensures { IfOk result (λ copy. copy ≡ patterns.now) }
{
    patterns.clone()
}
