//! What the sources of the network said last of each row, and how many fast packets were sent of it.
ghost use Rattle.std.specs.Prelude.{◌≡◌, ◌+◌, ◌<◌, ◌≤◌, [], ◌∷◌, false, length, All, IfOk, Some};
ghost use Rattle.readings.specs.Rows.{IsValid, row_of, row_number};
ghost use Rattle.source_choice.specs.Choices.{opened};
ghost use Rattle.history.specs.Choice.{is_usable};
ghost use Rattle.history.specs.NetReadings.{is_fast_row};
ghost use Rattle.gate_model.specs.Net.{rank_by, is_chosen, sequence_at, sent_by, reading_after, reading_emits, readings_after, readings_emit};
ghost use Rattle.row_traffic.specs.NetCalls.{line_of, none_sent};
ghost use Rattle.gate_outbox.specs.Output.{and_told, most_told};

use crate::network::heard::Heard;
use crate::rows::{number, says_something};
use crate::sending::{is_fast, send_reading};
use gate_outbox::StepEmits;
use gate_outbox::reports::at_place;
use pgn_profile::kind;
use readings::{ROWS, Reading, Row, row};
use report_rules::NOT_READY;
use source_choice::{Choice, Rank};
use std::alloc::{AllocError, Global};
use std::marker::Model;

/// What is kept of the readings from the network.
#[derive(Drop)]
pub(crate) struct Readings {
    choice: Choice,
    /// How many fast packets were sent of each row, from 0 to 7, by the row's number.
    sequences: [u8; ROWS],
}

impl Model for Readings {
    ghost use Rattle.std.specs.Prelude.{◌≡◌, ◌≤◌, length};
    ghost use Rattle.std.specs.List.{AllByRecursion};
    ghost use Rattle.readings.specs.Rows.{rows_count};
    ghost use Rattle.gate_model.specs.Net.{ReadingsKept};

    ghost Value = { ReadingsKept };

    ghost view = { λ r. record { choices = r.choice; sequences = r.sequences } };

    ghost invariant = { λ r. (length r.choice.subjects ≡ rows_count) × (length r.sequences ≡ rows_count) × AllByRecursion (λ n. n ≤ 7) r.sequences };
}

impl Readings {
    /// With nothing noted, and nothing sent.
    pub(crate) fn new(
        alloc: Global,
        listed: u16,
        timeouts: &[u32; ROWS],
    ) -> Result<Readings, AllocError>
        requires { listed ≤ 254 }
        ensures { IfOk result (λ r. r ≡ record { choices = opened listed timeouts.now; sequences = none_sent }) }
    {
        let choice = Choice::new(alloc, listed, timeouts)?;
        Ok(Readings {
            choice,
            sequences: [0; ROWS],
        })
    }

    /// Takes a reading: where it is selected it is sent on, or reported where the gateway isn't ready; and it is noted.
    pub(crate) fn take(&mut self, line: Heard, reading: &Reading, out: &mut StepEmits)
        requires valid { IsValid reading.now }
        requires source { line.source < self.old.choices.sources }
        ensures after { self.new ≡ reading_after self.old (line_of line) reading.now }
        ensures emits { out.new ≡ and_told most_told out.old (reading_emits line.came.own self.old (line_of line) reading.now) }
    {
        let chosen = self.is_chosen(line, reading);
        self.pass_on(line, reading, chosen, out);
        self.note(line, reading, chosen);
    }

    /// Takes the readings of a sentence, in their order.
    #[tactic(auto, using(gate_outbox::proofs::Telling::told_more, std::proofs::lemmas::Grind::common_steps))]
    pub(crate) fn take_all(&mut self, line: Heard, readings: &[Reading], out: &mut StepEmits)
        requires valid { All IsValid readings.now }
        requires source { line.source < self.old.choices.sources }
        ensures after { self.new ≡ readings_after self.old (line_of line) readings.now }
        ensures emits { out.new ≡ and_told most_told out.old (readings_emit line.came.own self.old (line_of line) readings.now) }
    {
        for reading in readings {
            self.take(line, reading, out);
        }
    }

    /// Whether the reading is selected.
    fn is_chosen(&self, line: Heard, reading: &Reading) -> bool
        requires { line.source < self.now.choices.sources }
        ensures { result ≡ is_chosen self.now (line_of line) reading.now }
    {
        self.choice.selected(
            number(row(reading)),
            line.source,
            rank_by(line),
            line.came.moment,
        )
    }

    /// Sends a reading that is selected on, or reports it where the gateway isn't ready.
    fn pass_on(&self, line: Heard, reading: &Reading, chosen: bool, out: &mut StepEmits)
        requires valid { IsValid reading.now }
        requires chosen { chosen ≡ is_chosen self.now (line_of line) reading.now }
        ensures emits { out.new ≡ and_told most_told out.old (reading_emits line.came.own self.now (line_of line) reading.now) }
    {
        if !chosen {
            return;
        }
        if line.came.ready {
            self.send(line.came.own, reading, out);
        } else {
            out.tell(at_place(NOT_READY, line.place));
        }
    }

    /// Sends a reading from the own address, where there is one.
    fn send(&self, own: Option<u8>, reading: &Reading, out: &mut StepEmits)
        requires valid { IsValid reading.now }
        ensures emits { out.new ≡ and_told most_told out.old (sent_by own self.now reading.now) }
    {
        match own {
            Some(address) => {
                send_reading(address, self.sequence_at(row(reading)), reading, out);
            }
            None => {}
        }
    }

    /// The sequence of the next fast packet of the row.
    fn sequence_at(&self, row: Row) -> u8
        ensures sequence { result ≡ sequence_at self.now row }
        ensures within { result ≤ 7 }
    {
        self.sequences[number(row)]
    }

    /// Notes the reading, and counts the fast packet that is sent of it.
    fn note(&mut self, line: Heard, reading: &Reading, chosen: bool)
        requires source { line.source < self.old.choices.sources }
        requires chosen { chosen ≡ is_chosen self.old (line_of line) reading.now }
        ensures { self.new ≡ reading_after self.old (line_of line) reading.now }
    {
        let row = row(reading);
        if chosen && line.came.ready && is_fast_row(row) {
            let number = number(row);
            self.sequences[number] = (self.sequences[number] + 1) % 8;
        }
        self.choice.note(
            number(row),
            line.source,
            rank_by(line),
            line.came.moment,
            says_something(reading),
        );
    }
}

/// Whether messages of the row are sent as fast packets.
fn is_fast_row(row: Row) -> bool
    ensures { result ≡ is_fast_row row }
{
    is_fast(kind(row.pgn()))
}

/// The rank of a source is its place among those that are listed.
fn rank_by(line: Heard) -> Rank
    ensures { result ≡ rank_by (line_of line) }
{
    Rank {
        place: line.source,
        name: 0,
    }
}
