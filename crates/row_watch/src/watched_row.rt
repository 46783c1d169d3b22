//! A row that has to be said.
ghost use Rattle.std.specs.Prelude.{◌≡◌, Some};
ghost use Rattle.readings.specs.Rows.{row_of};
ghost use Rattle.history.specs.Settings.{same_row};
ghost use Rattle.row_watch.specs.WatchKept.{change_in, is_said_by, opened_row, row_after, said_at, silent_at};
ghost use Rattle.row_watch.specs.WatchOut.{change};

use parts::SelectedMessage;
use readings::{Row, row, usable};

/// A row that has to be said, and whether it is.
#[derive(Clone, Copy)]
pub(crate) struct WatchedRow {
    pub(crate) row: Row,
    /// How long it may stay unsaid, in milliseconds.
    limit: u32,
    /// When it was said last, in microseconds.
    said: Option<u64>,
    pub(crate) silent: bool,
}

impl Default for WatchedRow {
    ghost is_default = { λ w. Unit {0} };

    fn default() -> WatchedRow {
        WatchedRow::new(Row::HeadingTrue, 0)
    }
}

impl WatchedRow {
    /// A row that was never said.
    pub(crate) fn new(row: Row, limit: u32) -> WatchedRow
        ensures { result ≡ opened_row row limit }
    {
        WatchedRow {
            row,
            limit,
            said: None,
            silent: false,
        }
    }

    /// Takes an event of this moment and the message that it completes, where it is selected. Says whether the row fell silent at it, or is
    /// said again. Until a row is said, it counts from the start.
    pub(crate) fn after(&mut self, start: u64, moment: u64, new: &Option<SelectedMessage>) -> bool
        ensures after { self.new ≡ row_after start moment new.now self.old }
        ensures changed { change self.old.row self.old.silent self.new.silent ≡ change_in self.new result }
    {
        if let Some(message) = new {
            if is_said_by(message, self.row) {
                self.said = Some(message.moment);
            }
        }
        let silent = self.is_silent(start, moment);
        let changed = silent != self.silent;
        self.silent = silent;
        changed
    }

    /// Whether it was said longer ago than it may stay unsaid.
    fn is_silent(&self, start: u64, moment: u64) -> bool
        ensures { result ≡ silent_at start moment self.now }
    {
        let last = self.said.unwrap_or(start);
        moment.saturating_sub(last) > 1_000 * u64::from(self.limit)
    }
}

/// Whether the message says the row: it is of it, and usable.
fn is_said_by(message: &SelectedMessage, other: Row) -> bool
    ensures { result ≡ is_said_by message.now other }
{
    row(&message.reading) as usize == other as usize && usable(&message.reading)
}
