//! Rows under watch, and heartbeats behind them.
ghost use Rattle.std.specs.Prelude.{◌≡◌, [], false, Option, IfOk};
ghost use Rattle.history.specs.Entries.{History};
ghost use Rattle.history.specs.Settings.{Settings};
ghost use Rattle.parts.specs.Steps.{IsEventValid};
ghost use Rattle.parts.specs.Compose.{both_output, maybe_give, maybe_stand};
ghost use Rattle.parts.specs.Lanes.{given_plain};
ghost use Rattle.parts.specs.PartSteps.{Says};
ghost use Rattle.row_watch.specs.Alerts.{alerts_output, alerts_plain};
ghost use Rattle.row_watch.specs.WatchStands.{watch_gives, watch_stands};
ghost use Rattle.heartbeats.specs.Beats.{beat_output};
ghost use Rattle.supervision.specs.Supervised.{AskedBeatsTake, TellsIfSilent, joined_by, supervision_asked, supervision_gives, supervision_stands};

use heartbeats::{BeatPlace, Heartbeats};
use parts::{Part, Step};
use row_watch::{Alerts, RowWatch};
use settings::Setup;
use std::alloc::{AllocError, Global};

/// The place for what is told of rows, and for heartbeats behind it.
pub type SupervisionPlace = (Alerts, BeatPlace);

/// Rows under watch, and heartbeats: each is there if a file asks for it.
#[derive(Drop)]
pub struct Supervision {
    watch: Option<RowWatch>,
    beats: Option<Heartbeats>,
}

impl Part<SupervisionPlace> for Supervision {
    ghost use Rattle.parts.specs.Utterances.{streamless};
    ghost use Rattle.supervision.specs.Supervised.{SupervisionRule};

    ghost Rule = { SupervisionRule };

    ghost asked = { supervision_asked };

    ghost stands = { supervision_stands };

    ghost gives = { supervision_gives };

    ghost utters = { streamless supervision_gives };

    fn opened(alloc: Global, setup: &Setup) -> Result<Option<Supervision>, AllocError> {
        let watch = RowWatch::opened(alloc, setup)?;
        let beats = Heartbeats::opened(setup);
        Ok(joined(watch, beats))
    }

    fn after(&mut self, step: &Step<'_>, place: &mut SupervisionPlace) -> bool {
        let told = watch_after(&mut self.watch, step, &mut place.0);
        let silent = is_any_silent(&self.watch);
        let given = beats_after(&mut self.beats, step, silent, &mut place.1);
        told || given
    }
}

/// Both, if one of them is there.
fn joined(watch: Option<RowWatch>, beats: Option<Heartbeats>) -> Option<Supervision>
    ensures { result ≡ joined_by watch beats }
{
    if watch.is_none() && beats.is_none() {
        return None;
    }
    Some(Supervision { watch, beats })
}

/// Lets the rows take an event.
fn watch_after(watch: &mut Option<RowWatch>, step: &Step<'_>, place: &mut Alerts) -> bool
    requires valid { IsEventValid step.now.event.now }
    requires empty { alerts_output place.old ≡ [] }
    ensures takes { Says (maybe_stand watch_stands) (maybe_give watch_gives) alerts_output step.now watch.old watch.new place.new }
    ensures unsaid { alerts_plain place.new ≡ alerts_plain place.old }
    ensures gave { result ≡ false → alerts_output place.new ≡ [] }
{
    match watch {
        Some(watch) => watch.after(step, place),
        None => false,
    }
}

/// Whether any of the rows is silent after the last event.
fn is_any_silent(watch: &Option<RowWatch>) -> bool
    ensures { TellsIfSilent watch.now result }
{
    match watch {
        Some(watch) => watch.is_any_silent(),
        None => false,
    }
}

/// Lets the heartbeats take an event, behind which a watched row is silent or not.
fn beats_after(
    beats: &mut Option<Heartbeats>,
    step: &Step<'_>,
    is_silent: bool,
    place: &mut BeatPlace,
) -> bool
    requires empty { beat_output place.old ≡ [] }
    ensures takes { AskedBeatsTake step.now is_silent beats.old beats.new place.new }
    ensures unsaid { both_output given_plain given_plain place.new ≡ both_output given_plain given_plain place.old }
    ensures gave { result ≡ false → beat_output place.new ≡ [] }
{
    match beats {
        Some(beats) => beats.after_rows(step, is_silent, place),
        None => false,
    }
}
