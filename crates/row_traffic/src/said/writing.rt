//! The datagram in which a reading is said.
ghost use Rattle.std.specs.Prelude.{◌≡◌, ◌+◌, ◌<◌, ◌≤◌, ◌++◌, [], length};
ghost use Rattle.readings.specs.Rows.{IsValid};
ghost use Rattle.sentence_text.specs.Names.{IsSfi};
ghost use Rattle.arrayvec.specs.ArrayVec.{array_vec_len};
ghost use Rattle.sentence_fields.specs.Field.{most_sentences, texts_of};
ghost use Rattle.tag_block.specs.Tag.{most_count};
ghost use Rattle.tag_block.specs.Writing.{longest_packet, most_written_code};
ghost use Rattle.datagram450.specs.Datagram.{header};
ghost use Rattle.history.specs.Emits.{lines_from, part_of};
ghost use Rattle.gate_model.specs.Said.{sentences_by};
ghost use Rattle.config_values.specs.Configs.{IsConfig};
ghost use Rattle.config_values.specs.Settings.{settings_by};
ghost use Rattle.row_traffic.specs.Saying.{texts};

use crate::rows::talker_of;
use config_values::SelectiveConfig;
use datagram450::{begin, push_line};
use readings::{Reading, row};
use sentence_fields::{Lines, SentenceText};
use sentence_rows::sentences;
use sentence_text::Sfi;
use tag_block::{GroupPart, MOST_COUNT, Packet, TagParts};

/// The system function identifier by which the gateway speaks.
#[tactic(auto, using(crate::proofs::Saying::says_sfi))]
pub(crate) fn speaker(config: &SelectiveConfig) -> Sfi
    ensures sfi { result ≡ (settings_by config.now).sfi }
    ensures form { IsSfi result }
{
    let _form = config.base.sfi.as_bytes();
    config.base.sfi
}

/// The sentences in which a reading is said.
pub(crate) fn sentences_in(config: &SelectiveConfig, reading: &Reading, out: &mut Lines)
    requires config { IsConfig config.now.base }
    requires valid { IsValid reading.now }
    requires empty { out.old.items ≡ [] }
    ensures { texts_of out.new ≡ sentences_by (settings_by config.now) reading.now }
{
    sentences(
        reading,
        talker_of(config, row(reading)),
        config.base.ths,
        out,
    );
}

/// Writes the datagram of these sentences, of which one or two are there. So many lines were said before on the transmission group,
/// and a group of lines has this code.
pub(crate) fn write_datagram(
    source: Sfi,
    code: u16,
    before: u16,
    sentences: &[SentenceText],
    packet: &mut Packet,
)
    requires empty { packet.old.items ≡ [] }
    requires least_code { 1 ≤ code }
    requires most_code { code ≤ most_written_code }
    requires count { before < most_count }
    requires few { length sentences.now ≤ most_sentences }
    requires room { length (header ++ lines_from source (length sentences.now) code before 1 (texts sentences.now)) ≤ longest_packet }
    ensures { packet.new.items ≡ header ++ lines_from source (length sentences.now) code before 1 (texts sentences.now) }
{
    begin(packet);
    write_lines(source, code, before, sentences, packet);
}

/// Writes the lines behind the header.
fn write_lines(source: Sfi, code: u16, before: u16, sentences: &[SentenceText], packet: &mut Packet)
    requires least_code { 1 ≤ code }
    requires most_code { code ≤ most_written_code }
    requires count { before < most_count }
    requires few { length sentences.now ≤ most_sentences }
    requires room { array_vec_len packet.old
        + length (lines_from source (length sentences.now) code before 1 (texts sentences.now)) ≤ longest_packet }
    ensures { packet.new.items ≡ packet.old.items ++ lines_from source (length sentences.now) code before 1 (texts sentences.now) }
{
    for place in 0..sentences.len() {
        let tag = TagParts {
            group: part_of(sentences.len() as u8, code, place as u8 + 1),
            source,
            count: (before + place as u16) % MOST_COUNT + 1,
        };
        let _fits = push_line(&tag, &sentences[place].bytes, packet);
    }
}

/// The place of a line in its group, where there are several.
fn part_of(total: u8, code: u16, number: u8) -> Option<GroupPart>
    ensures { result ≡ part_of total code number }
{
    if total >= 2 {
        Some(GroupPart {
            number,
            total,
            code,
        })
    } else {
        None
    }
}
