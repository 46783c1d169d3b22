//! All that one file configures.
ghost use Rattle.std.specs.Prelude.{◌≡◌, IfOk};

use crate::heading::HeadingConfig;
use crate::heartbeat::HeartbeatConfig;
use crate::nav::NavConfig;
use crate::quantity_config::Quantities;
use crate::settings::Settings;
use crate::watch::WatchConfig;
use arrayvec::ArrayVec;
use history::OptionalSentences;
use n2k_id::Pattern;
use readings::ROWS;
use sentence_text::Group;
use std::alloc::AllocError;

/// All that one file configures: the settings, and what further keys ask for.
#[derive(Drop)]
pub struct Setup {
    /// The gateway itself, what it says of itself, RMC and reports of ships.
    pub settings: Settings,
    /// The devices that no row is taken from.
    pub ignore: ArrayVec<Pattern, 16>,
    /// Which of the sentences from the network are read that a configuration decides on.
    pub optional_sentences: OptionalSentences,
    /// How further quantities are said; none: they aren't.
    pub quantities: Option<Quantities>,
    /// Whether a change of the device that a row is taken from is told.
    pub sources: bool,
    /// Whether a change of the gateway's own address is told.
    pub address: bool,
    /// The transmission group that all sentences are sent to once more, without headers and TAG blocks; none: they aren't.
    pub plain: Option<Group>,
    /// How long plain sentences that say the same pause, in milliseconds, 0 to 60,000; 0: not at all.
    pub plain_every_ms: u32,
    /// Whether a run writes down what comes.
    pub record: bool,
    /// How headings are joined; none: they aren't.
    pub heading: Option<HeadingConfig>,
    /// How the legs of plotters are said; none: they aren't.
    pub nav: Option<NavConfig>,
    /// Which rows have to be said.
    pub watch: WatchConfig,
    /// How heartbeats are said.
    pub heartbeat: HeartbeatConfig,
}

impl Setup {
    ghost use Rattle.std.specs.Prelude.{◌≡◌, IfOk};
    ghost use Rattle.settings.specs.Settings.{IsSettings};
    ghost use Rattle.settings.specs.Setup.{IsSetup, alone};

    /// A copy of these settings, with nothing that further keys ask for.
    pub fn alone(settings: &Settings) -> Result<Setup, AllocError>
        requires { IsSettings settings.now }
        ensures value { IfOk result (λ setup. setup ≡ alone settings.now) }
        ensures valid { IfOk result IsSetup }
    {
        Ok(Setup {
            settings: copy_of(settings)?,
            ignore: ArrayVec::new(),
            optional_sentences: OptionalSentences::USUAL,
            quantities: None,
            sources: false,
            address: false,
            plain: None,
            plain_every_ms: 0,
            record: false,
            heading: None,
            nav: None,
            watch: WatchConfig {
                limits: [None; ROWS],
                alerts: None,
            },
            heartbeat: HeartbeatConfig {
                net: None,
                bus_every_s: None,
            },
        })
    }
}

/// A copy of these settings.
#[tactic(auto, using(std::proofs::lemmas::List::Elements::same_from_all_zip))]
fn copy_of(settings: &Settings) -> Result<Settings, AllocError>
    ensures { IfOk result (λ copy. copy ≡ settings.now) }
{
    settings.clone()
}
