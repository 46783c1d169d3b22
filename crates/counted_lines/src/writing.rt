//! Writes the lines, one behind the other: `\s:II0001,n:1*01\$HCHDM,89.0,M*18`.
ghost use Rattle.std.specs.Prelude.{◌≡◌, ◌+◌, ◌<◌, ◌≤◌, ◌++◌, IsTrue, length};
ghost use Rattle.std.specs.List.{AllByRecursion, list_all};
ghost use Rattle.arrayvec.specs.ArrayVec.{array_vec_len};
ghost use Rattle.sentence_text.specs.Byte.{is_address_byte, is_capital};
ghost use Rattle.sentence_fields.specs.Field.{IsPrintable, body_width, sentence_by};
ghost use Rattle.counted_lines.specs.CountedLines.{line_of, lines_from, only_where};

use datagram450::push_line;
use sentence_fields::{Field, SentenceText, write_sentence};
use sentence_text::Sfi;
use tag_block::{MOST_COUNT, Packet, TagParts};

/// Appends the line of a sentence where that is to be said, before which so many lines were, and answers how many lines it appended.
pub fn append_where(
    said: bool,
    source: Sfi,
    before: u16,
    talker: [u8; 2],
    formatter: [u8; 3],
    fields: &[Field],
    packet: &mut Packet,
) -> u16
    requires count { before < 1002 }
    requires talker { IsTrue (list_all is_capital talker) }
    requires formatter { IsTrue (list_all is_address_byte formatter) }
    requires printable { AllByRecursion IsPrintable fields.now }
    requires short { body_width fields.now ≤ 71 }
    requires room { array_vec_len packet.old ≤ 300 }
    ensures written { packet.new.items ≡ packet.old.items ++ lines_from source before (only_where said (sentence_by talker formatter fields.now)) }
    ensures count { result ≡ length (only_where said (sentence_by talker formatter fields.now)) }
    ensures short { array_vec_len packet.new ≤ array_vec_len packet.old + 114 }
{
    if !said {
        return 0;
    }
    append_line(source, before, talker, formatter, fields, packet);
    1
}

/// Appends the line of a sentence, before which so many lines were said.
#[tactic(auto, using(crate::proofs::Lines::line_short))]
pub fn append_line(
    source: Sfi,
    before: u16,
    talker: [u8; 2],
    formatter: [u8; 3],
    fields: &[Field],
    packet: &mut Packet,
)
    requires talker { IsTrue (list_all is_capital talker) }
    requires formatter { IsTrue (list_all is_address_byte formatter) }
    requires printable { AllByRecursion IsPrintable fields.now }
    requires short { body_width fields.now ≤ 71 }
    requires room { array_vec_len packet.old ≤ 300 }
    ensures written { packet.new.items ≡ packet.old.items ++ line_of source before (sentence_by talker formatter fields.now) }
    ensures short { array_vec_len packet.new ≤ array_vec_len packet.old + 114 }
{
    let _form = source.as_bytes();
    let mut sentence = SentenceText::default();
    write_sentence(talker, formatter, fields, &mut sentence);
    let tag = TagParts {
        group: None,
        source,
        count: before % MOST_COUNT + 1,
    };
    let _fits = push_line(&tag, &sentence.bytes, packet);
}
