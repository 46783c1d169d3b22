//! What is said on the network of the messages of the bus (IEC 61162-450): whose messages are said, and how many lines were.
ghost use Rattle.std.specs.Prelude.{◌≡◌, ◌+◌, ◌*◌, ◌%◌, ◌<◌, ◌≤◌, ◌++◌, ◌∷◌, [], false, length, map, IfOk, IfSome, Some};
ghost use Rattle.std.specs.Int.{from_le_bytes, to_le_bytes, w32};
ghost use Rattle.std.specs.List.{AllByRecursion};
ghost use Rattle.readings.specs.Rows.{IsValid, row_of, row_number};
ghost use Rattle.sentence_text.specs.Byte.{is_capital};
ghost use Rattle.source_choice.specs.Choices.{opened, forgotten};
ghost use Rattle.sentence_fields.specs.Field.{most_sentences};
ghost use Rattle.tag_block.specs.Tag.{most_count};
ghost use Rattle.history.specs.Choice.{rank_of, reading_in};
ghost use Rattle.history.specs.Emits.{is_there};
ghost use Rattle.gate_events.specs.Emit.{net};
ghost use Rattle.history.specs.Settings.{rule_of, same_text};
ghost use Rattle.gate_model.specs.Net.{row_numbers};
ghost use Rattle.gate_model.specs.Said.{SaidKept, is_chosen, noted_by, counted, lines_more, groups_more, lines_at, datagram_by, sentences_by};
ghost use Rattle.gate_model.specs.Said.{ranked_after, ranked_emits, profiled_after, profiled_emits};
ghost use Rattle.config_values.specs.Configs.{IsConfig};
ghost use Rattle.config_values.specs.Settings.{settings_by, rule_of_row};
ghost use Rattle.row_traffic.specs.Saying.{message_from};
ghost use Rattle.gate_outbox.specs.Output.{and_posted, with_posted};

use crate::rows::{number, rank_in, row_at, row_config, told_by};
use crate::said::writing::{sentences_in, speaker, write_datagram};
use config_values::SelectiveConfig;
use gate_outbox::StepEmits;
use n2k_id::Name;
use n2k_id::address::ADDRESSES;
use pgn_profile::Profiled;
use readings::{ROWS, Reading, Row, row};
use sentence_fields::Lines;
use sentence_text::Group;
use source_choice::{Choice, Rank};
use std::alloc::{AllocError, Global};
use std::marker::Model;
use tag_block::{MOST_CODE, MOST_COUNT};

mod writing;

/// Who sends a message, and when it is complete.
#[derive(Clone, Copy)]
pub struct Sender {
    /// In microseconds.
    pub moment: u64,
    pub source: u8,
    /// The NAME that holds the source.
    pub name: Name,
}

/// What is kept of what was said.
#[derive(Drop)]
pub struct Said {
    choice: Choice,
    /// How many lines were said on the transmission group of each row, modulo [`MOST_COUNT`], by the row's number.
    lines: [u16; ROWS],
    /// How many groups of lines were said, modulo [`MOST_CODE`].
    groups: u8,
}

impl Model for Said {
    ghost use Rattle.std.specs.Prelude.{◌≡◌, ◌<◌, length};
    ghost use Rattle.std.specs.List.{AllByRecursion};
    ghost use Rattle.readings.specs.Rows.{rows_count};
    ghost use Rattle.tag_block.specs.Tag.{most_count};
    ghost use Rattle.tag_block.specs.Writing.{most_written_code};
    ghost use Rattle.gate_model.specs.Said.{SaidKept};

    ghost Value = { SaidKept };

    ghost view = { λ s. record { choices = s.choice; lines = s.lines; groups = s.groups } };

    ghost invariant = { λ s. (s.choice.sources ≡ 254) × (length s.choice.subjects ≡ rows_count) × (length s.lines ≡ rows_count) × AllByRecursion (λ n. n < most_count) s.lines × (s.groups < most_written_code) };
}

impl Said {
    /// With nothing said.
    pub fn new(alloc: Global, timeouts: &[u32; ROWS]) -> Result<Said, AllocError>
        ensures { IfOk result (λ s. s ≡ record { choices = opened 254 timeouts.now; lines = map (λ number. 0) row_numbers; groups = 0 }) }
    {
        let choice = Choice::new(alloc, ADDRESSES as u16, timeouts)?;
        Ok(Said {
            choice,
            lines: [0; ROWS],
            groups: 0,
        })
    }

    /// Takes what a message says: a reading is noted where its sender has a rank in the row, and said where it is selected. It answers
    /// whether it is.
    pub fn take(
        &mut self,
        config: &SelectiveConfig,
        sender: Sender,
        profiled: &Profiled,
        out: &mut StepEmits,
    ) -> bool
        requires config { IsConfig config.now.base }
        requires source { sender.source < 254 }
        requires valid { IfSome (reading_in profiled.now) IsValid }
        ensures after { self.new ≡ profiled_after (settings_by config.now) self.old (message_from sender) (reading_in profiled.now) }
        ensures emits { out.new ≡ and_posted out.old (profiled_emits (settings_by config.now) self.old (message_from sender) (reading_in profiled.now)) }
        ensures selected { result ≡ is_there (profiled_emits (settings_by config.now) self.old (message_from sender) (reading_in profiled.now)) }
    {
        match profiled {
            Profiled::Reading(reading) => match rank_in(config, row(reading), sender.name) {
                Some(rank) => self.take_ranked(config, sender, rank, reading, out),
                None => false,
            },
            Profiled::Outside | Profiled::Short => false,
        }
    }

    /// Notes a reading, and says it where it is selected: it answers whether it is.
    fn take_ranked(
        &mut self,
        config: &SelectiveConfig,
        sender: Sender,
        rank: Rank,
        reading: &Reading,
        out: &mut StepEmits,
    ) -> bool
        requires config { IsConfig config.now.base }
        requires source { sender.source < 254 }
        requires valid { IsValid reading.now }
        ensures after { self.new ≡ ranked_after (settings_by config.now) self.old (message_from sender) reading.now (Some rank) }
        ensures emits { out.new ≡ and_posted out.old
            (ranked_emits (settings_by config.now) self.old (message_from sender) reading.now (Some rank)) }
        ensures selected { result ≡ is_chosen self.old (message_from sender) rank reading.now }
    {
        let selected = self.choose(sender, rank, reading);
        if selected {
            self.say(config, reading, out);
        }
        selected
    }

    /// Notes what the sender said of the row, and says whether the reading is selected.
    fn choose(&mut self, sender: Sender, rank: Rank, reading: &Reading) -> bool
        requires { sender.source < 254 }
        ensures chosen { result ≡ is_chosen self.old (message_from sender) rank reading.now }
        ensures after { self.new ≡ noted_by self.old (message_from sender) rank reading.now }
    {
        self.choice
            .take(sender.source, rank, sender.moment, told_by(reading))
    }

    /// Says a reading in one datagram, and counts its lines.
    fn say(&mut self, config: &SelectiveConfig, reading: &Reading, out: &mut StepEmits)
        requires config { IsConfig config.now.base }
        requires valid { IsValid reading.now }
        ensures after { self.new ≡ counted (settings_by config.now) self.old reading.now }
        ensures emits { out.new ≡ with_posted out.old (net (rule_of (settings_by config.now) (row_of reading.now)).group
            (datagram_by (settings_by config.now) self.old reading.now) ∷ []) }
    {
        let row = row(reading);
        let group = row_config(config, row).group;
        let mut sentences = Lines::new();
        sentences_in(config, reading, &mut sentences);
        let datagram = out.post(group);
        write_datagram(
            speaker(config),
            u16::from(self.groups) + 1,
            self.lines[number(row)],
            &sentences,
            &mut datagram.packet,
        );
        self.count(config, group, sentences.len() as u16);
    }

    /// Counts so many lines that were said on a transmission group.
    fn count(&mut self, config: &SelectiveConfig, group: Group, count: u16)
        requires { count ≤ most_sentences }
        ensures { self.new ≡ record self.old {
          lines = map (lines_more (settings_by config.now) self.old group count) row_numbers;
          groups = groups_more self.old count;
        } }
    {
        self.count_lines(config, group, count);
        self.count_groups(count);
    }

    fn count_lines(&mut self, config: &SelectiveConfig, group: Group, count: u16)
        requires { count ≤ most_sentences }
        ensures { self.new ≡ record self.old { lines = map (lines_more (settings_by config.now) self.old group count) row_numbers } }
    {
        self.lines = self.counted_lines(config, group, count);
    }

    /// How many lines were said on the transmission group of each row, with so many more on a transmission group.
    fn counted_lines(&self, config: &SelectiveConfig, group: Group, count: u16) -> [u16; ROWS]
        requires { count ≤ most_sentences }
        ensures lines { result ≡ map (lines_more (settings_by config.now) self.now group count) row_numbers }
        ensures small { AllByRecursion (λ n. n < most_count) result }
    {
        let mut lines = [0; ROWS];
        for number in 0..ROWS {
            lines[number] = self.lines_more(config, group, count, number);
        }
        lines
    }

    /// How many lines were said on the transmission group of a row, with so many more on a transmission group.
    fn lines_more(&self, config: &SelectiveConfig, group: Group, count: u16, number: usize) -> u16
        requires row { number < ROWS }
        requires few { count ≤ most_sentences }
        ensures lines { result ≡ lines_more (settings_by config.now) self.now group count number }
        ensures within { result < most_count }
    {
        let before = self.lines[number];
        let after = wrapped(before + count);
        if is_same(group, row_at(config, number).group) {
            after
        } else {
            before
        }
    }

    fn count_groups(&mut self, count: u16)
        ensures { self.new ≡ record self.old { groups = groups_more self.old count } }
    {
        if count >= 2 {
            self.groups = (self.groups + 1) % MOST_CODE;
        }
    }

    /// Nothing is noted of the source any more.
    pub fn forget(&mut self, source: u8)
        requires { source < 254 }
        ensures { self.new ≡ record self.old { choices = forgotten self.old.choices source } }
    {
        self.choice.forget(source);
    }
}

/// Whether two transmission groups are one. Each is compared as one number: characters one by one would cost three times as much, where
/// a line is counted of all rows.
#[tactic(auto, using(crate::proofs::Groups::numbers_tell))]
fn is_same(first: Group, second: Group) -> bool
    ensures { result ≡ same_text first second }
{
    number_of(first) == number_of(second)
}

/// The characters of a transmission group as a number.
fn number_of(group: Group) -> u32
    ensures number { result ≡ from_le_bytes w32 group }
    ensures text { to_le_bytes w32 result ≡ group }
{
    u32::from_le_bytes(*group.as_bytes())
}

/// Behind the greatest count comes 0; this is found without a division.
fn wrapped(count: u16) -> u16
    requires { count < 2 * most_count }
    ensures { result ≡ count % most_count }
{
    if count < MOST_COUNT {
        count
    } else {
        count - MOST_COUNT
    }
}
