//! The device that each row was taken from last.
ghost use Rattle.std.specs.Prelude.{◌≡◌, ◌<◌, IfOk, Some};
ghost use Rattle.readings.specs.Rows.{row_of, row_number, rows_count};
ghost use Rattle.history.specs.Settings.{Settings};
ghost use Rattle.parts.specs.PartSteps.{IsOpened};
ghost use Rattle.parts.specs.Picked.{last_picked};
ghost use Rattle.source_changes.specs.SourcesPart.{sources_asked, sources_give, sources_stand};
ghost use Rattle.source_changes.specs.WatchKept.{change_by, is_by, names_after, no_names};
ghost use Rattle.source_changes.specs.WatchStands.{IsWatchStep};

use gate_events::{Detail, Report};
use n2k_id::Name;
use parts::{Gateway, Given, Outbox, Part, SelectedMessage, Step};
use readings::{ROWS, row};
use report_rules::SOURCE_CHANGED;
use settings::Setup;
use std::alloc::{AllocError, Global};
use std::marker::Model;

/// The place for a report of a change.
pub type SourcesPlace = Given<1>;

/// The device that each row was taken from last, by the row's number.
#[derive(Drop)]
pub struct SourceWatch {
    names: [Option<Name>; ROWS],
}

impl Model for SourceWatch {
    ghost use Rattle.std.specs.Prelude.{List, Option};
    ghost use Rattle.n2k_id.specs.declared.name.Name.{Name};

    ghost Value = { List (Option Name) };

    ghost view = { λ w. w.names };
}

impl SourceWatch {
    /// No row was taken from any device yet.
    fn new() -> SourceWatch
        ensures kept { result ≡ no_names }
        ensures stands { (c : Settings) → IsOpened sources_stand tt c result }
    {
        SourceWatch {
            names: [None; ROWS],
        }
    }

    /// Takes what a step of the gateway left that accepted its event. Tells where a row is taken from another device than before.
    fn change(&mut self, gateway: &Gateway, outbox: &Outbox) -> Option<Report>
        ensures history { IsWatchStep gateway.now outbox.now self.old self.new result }
    {
        self.take(gateway, outbox)
    }

    /// Takes the message that a step selected, or none, as most steps do.
    #[inline(always)]
    fn take(&mut self, gateway: &Gateway, outbox: &Outbox) -> Option<Report>
        ensures kept { self.new ≡ names_after (last_picked gateway.now outbox.now) self.old }
        ensures told { result ≡ change_by (last_picked gateway.now outbox.now) self.old }
    {
        if outbox.selected() {
            self.take_selected(gateway, outbox)
        } else {
            None
        }
    }

    /// The same, where it selected one.
    #[inline(never)]
    fn take_selected(&mut self, gateway: &Gateway, outbox: &Outbox) -> Option<Report>
        ensures kept { self.new ≡ names_after (last_picked gateway.now outbox.now) self.old }
        ensures told { result ≡ change_by (last_picked gateway.now outbox.now) self.old }
    {
        match SelectedMessage::of(gateway, outbox) {
            Some(message) => self.handle_message(&message),
            None => None,
        }
    }

    /// Handles a message that was selected.
    fn handle_message(&mut self, message: &SelectedMessage) -> Option<Report>
        ensures kept { self.new ≡ names_after (Some message.now) self.old }
        ensures told { result ≡ change_by (Some message.now) self.old }
    {
        let row = row(&message.reading);
        let before = self.names[row.number()];
        self.names[row.number()] = Some(message.name);
        if is_by(message.name, before) {
            None
        } else {
            Some(Report {
                rule: SOURCE_CHANGED,
                detail: Detail::Row {
                    row,
                    address: message.source,
                },
            })
        }
    }
}

impl Part<SourcesPlace> for SourceWatch {
    ghost use Rattle.parts.specs.Utterances.{streamless};

    ghost Rule = { Unit {0} };

    ghost asked = { sources_asked };

    ghost stands = { sources_stand };

    ghost gives = { sources_give };

    ghost utters = { streamless sources_give };

    fn opened(_alloc: Global, setup: &Setup) -> Result<Option<SourceWatch>, AllocError> {
        if setup.sources {
            Ok(Some(SourceWatch::new()))
        } else {
            Ok(None)
        }
    }

    fn after(&mut self, step: &Step<'_>, place: &mut SourcesPlace) -> bool {
        match self.change(step.gateway, step.outbox) {
            Some(change) => {
                place.emits.tell(change);
                true
            }
            None => false,
        }
    }
}

/// Whether the device is this one.
fn is_by(name: Name, device: Option<Name>) -> bool
    ensures { result ≡ is_by name device }
{
    match device {
        Some(other) => other == name,
        None => false,
    }
}
