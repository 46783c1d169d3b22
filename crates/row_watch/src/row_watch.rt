//! Rows under watch beside the gateway.
ghost use Rattle.std.specs.Prelude.{◌≡◌, ◌≤◌, ◌<◌, ◌++◌, ◌+◌, [], ◌∷◌, length, IfSome, IsTrue};
ghost use Rattle.std.specs.List.{list_all};
ghost use Rattle.datagram450.specs.Datagram.{sentence_datagram};
ghost use Rattle.config_values.specs.Rows.{IsTalker};
ghost use Rattle.sentence_text.specs.Byte.{is_capital};
ghost use Rattle.row_watch.specs.Alert.{alert_text};
ghost use Rattle.row_watch.specs.Alerts.{alerts_output, alerts_plain, longest_alert, most_alerts};
ghost use Rattle.row_watch.specs.WatchKept.{any_kept_silent, next_count, opened_rows, opened_watch, row_taken, row_tells, told_from, watch_after, watch_tells};
ghost use Rattle.row_watch.specs.WatchRule.{watch_rule, watched_of};
ghost use Rattle.row_watch.specs.WatchStands.{IsOpenedWatch, TellsSilence, watch_gives, watch_stands};
ghost use Rattle.row_watch.specs.WatchPart.{watch_asked};
ghost use Rattle.readings.specs.Rows.{rows as all_rows};

use crate::alert::write_alert;
use crate::alerts::Alerts;
use crate::watched_row::WatchedRow;
use arrayvec::ArrayVec;
use datagram450::write_sentence;
use gate_events::{Detail, Report};
use parts::{Part, Place, SelectedMessage, Step};
use readings::{ROWS, Row, all_rows};
use report_rules::ROW_WATCHED;
use sentence_fields::SentenceText;
use sentence_text::Sfi;
use settings::{AlertConfig, Setup, WatchConfig};
use std::alloc::{AllocError, Global};
use std::marker::Model;
use tag_block::{MOST_COUNT, Packet};

/// The rows that have to be said.
#[derive(Drop)]
pub struct RowWatch {
    /// Each of them, in the order of the rows.
    rows: ArrayVec<WatchedRow, ROWS>,
    /// How alerts are said, if they are.
    alerts: Option<AlertConfig>,
    /// The system function identifier by which the gateway speaks.
    sfi: Sfi,
    /// How many changes were told, modulo [`MOST_COUNT`]: a line of the alerts' group for each, where alerts are said.
    count: u16,
}

impl Model for RowWatch {
    ghost use Rattle.std.specs.Prelude.{◌<◌, ◌≤◌, IfSome, IsTrue, length};
    ghost use Rattle.std.specs.List.{list_all};
    ghost use Rattle.sentence_text.specs.Byte.{is_capital};
    ghost use Rattle.tag_block.specs.Tag.{most_count};
    ghost use Rattle.readings.specs.Rows.{rows_count};
    ghost use Rattle.row_watch.specs.WatchKept.{Watch};

    ghost Value = { Watch };

    ghost view = { λ w. record { rows = w.rows.items; alerts = w.alerts; sfi = w.sfi; count = w.count } };

    ghost invariant = { λ w. IfSome w.alerts (λ a. IsTrue (list_all is_capital a.talker)) × (w.count < most_count) × (length w.rows.items ≤ rows_count) };
}

impl RowWatch {
    /// With nothing said yet, of a gateway that speaks by this system function identifier.
    fn new(config: &WatchConfig, sfi: Sfi) -> RowWatch
        requires { IfSome config.now.alerts (λ a. IsTalker a.talker) }
        ensures kept { result ≡ opened_watch (watched_of config.now.limits all_rows) config.now.alerts sfi }
        ensures stands { IsOpenedWatch (watch_rule config.now sfi) result }
    {
        RowWatch {
            rows: rows_of(config, all_rows()),
            alerts: config.alerts,
            sfi,
            count: 0,
        }
    }

    /// Whether any of the rows is silent after the last event.
    pub fn is_any_silent(&self) -> bool
        ensures tells { TellsSilence self.now result }
    {
        any_silent(self.rows.as_slice())
    }

    /// Takes an event of this moment, and the message that it completes, where it is selected.
    fn take(&mut self, start: u64, moment: u64, new: &Option<SelectedMessage>, place: &mut Alerts)
        requires { alerts_output place.old ≡ [] }
        ensures after { self.new ≡ watch_after start moment new.now self.old }
        ensures tells { alerts_output place.new ≡ watch_tells start moment new.now self.old }
        ensures plain { alerts_plain place.new ≡ alerts_plain place.old }
    {
        for at in 0..self.rows.len() {
            self.take_at(at, start, moment, new, place);
        }
    }

    /// The same of the row at this place.
    fn take_at(
        &mut self,
        at: usize,
        start: u64,
        moment: u64,
        new: &Option<SelectedMessage>,
        place: &mut Alerts,
    )
        requires within { at < length self.old.rows }
        requires room { length (alerts_output place.old) + 2 ≤ most_alerts }
        ensures after { self.new ≡ row_taken start moment new.now at self.old }
        ensures tells { alerts_output place.new ≡ alerts_output place.old ++ row_tells start moment new.now at self.old }
        ensures plain { alerts_plain place.new ≡ alerts_plain place.old }
    {
        if self.rows[at].after(start, moment, new) {
            let changed = self.rows[at];
            self.tell(changed.row, !changed.silent, place);
        }
    }

    /// Tells that a row isn't said, or is said again.
    fn tell(&mut self, row: Row, said: bool, place: &mut Alerts)
        requires { length (alerts_output place.old) + 2 ≤ most_alerts }
        ensures count { self.new ≡ record self.old { count = next_count self.old.count } }
        ensures tells { alerts_output place.new ≡ alerts_output place.old ++ told_from self.old self.old.count (record { row = row; said = said } ∷ []) }
        ensures plain { alerts_plain place.new ≡ alerts_plain place.old }
    {
        place.tell(Report {
            rule: ROW_WATCHED,
            detail: Detail::Watched { row, said },
        });
        if let Some(alerts) = &self.alerts {
            let mut packet = Packet::new();
            write_datagram(alerts.talker, self.sfi, self.count, row, said, &mut packet);
            place.post(alerts.group, packet.as_slice());
        }
        self.count = (self.count + 1) % MOST_COUNT;
    }
}

/// Whether any of these rows is silent.
fn any_silent(rows: &[WatchedRow]) -> bool
    ensures { result ≡ any_kept_silent rows.now }
{
    rows.iter().any(|row| row.silent)
}

/// Those of these rows that have to be said.
fn rows_of(config: &WatchConfig, all: &[Row; ROWS]) -> ArrayVec<WatchedRow, ROWS>
    ensures rows { result.items ≡ opened_rows (watched_of config.now.limits all.now) }
{
    let mut rows = ArrayVec::new();
    for row in all {
        if let Some(limit) = config.limits[row.number()] {
            rows.push(WatchedRow::new(*row, limit));
        }
    }
    rows
}

/// Writes the datagram of an alert. So many lines were said before.
fn write_datagram(
    talker: [u8; 2],
    source: Sfi,
    before: u16,
    row: Row,
    said: bool,
    packet: &mut Packet,
)
    requires empty { packet.old.items ≡ [] }
    requires talker { IsTrue (list_all is_capital talker) }
    ensures datagram { packet.new.items ≡ sentence_datagram source before (alert_text talker row said) }
    ensures short { length packet.new.items ≤ longest_alert }
{
    // so that its six characters are known, and with them the datagram's length
    let _form = source.as_bytes();
    let mut sentence = SentenceText::default();
    write_alert(talker, row, said, &mut sentence);
    write_sentence(source, before, &sentence.bytes, packet);
}

impl Part<Alerts> for RowWatch {
    ghost use Rattle.parts.specs.Utterances.{streamless};
    ghost use Rattle.row_watch.specs.WatchRule.{WatchRule};

    ghost Rule = { WatchRule };

    ghost asked = { watch_asked };

    ghost stands = { watch_stands };

    ghost gives = { watch_gives };

    ghost utters = { streamless watch_gives };

    fn opened(_alloc: Global, setup: &Setup) -> Result<Option<RowWatch>, AllocError> {
        let watch = RowWatch::new(&setup.watch, setup.settings.config.sfi);
        if watch.rows.is_empty() {
            Ok(None)
        } else {
            Ok(Some(watch))
        }
    }

    fn after(&mut self, step: &Step<'_>, place: &mut Alerts) -> bool {
        let new = SelectedMessage::of(step.gateway, step.outbox);
        self.take(step.start, step.gateway.moment(), &new, place);
        place.len() > 0
    }
}
