ghost use Rattle.std.specs.Prelude.{◌≡◌, ◌+◌, ◌≤◌, ◌↔◌, ℕ, List, [], ◌++◌, length, false, IsTrue};
ghost use Rattle.arrayvec.specs.ArrayVec.{array_vec_len};
ghost use Rattle.sentence_text.specs.Sentence.{SentenceParts, IsSentence};
ghost use Rattle.tag_block.specs.Tag.{IsTag, block_text};
ghost use Rattle.tag_block.specs.Writing.{IsWritable, block_of, longest_block, longest_packet, said_by};
ghost use Rattle.datagram450.specs.Datagram.{header, longest_datagram, read, line, line_text, sentence_datagram, GivesAt, IsBehind};

use crate::header::HEADER;
use sentence_text::Sfi;
use tag_block::{MOST_COUNT, Packet, TagParts};

/// The header of a datagram.
pub fn begin(out: &mut Packet)
    requires { out.old.items ≡ [] }
    ensures { out.new.items ≡ header }
{
    let _fits = out.try_extend_from_slice(&HEADER);
}

fn append_line(tag: &TagParts, sentence: &[u8], out: &mut Packet) -> bool
    requires { IsWritable tag.now }
    ensures fits { IsTrue result ↔ (array_vec_len out.old + length (line_text tag.now sentence.now) ≤ longest_packet) }
    ensures written { IsTrue result → out.new.items ≡ out.old.items ++ line_text tag.now sentence.now }
    ensures room { array_vec_len out.old + longest_block + length sentence.now ≤ longest_packet → IsTrue result }
    ensures unchanged { result ≡ false → out.new ≡ out.old }
    ensures grammar { IsTag (said_by tag.now) (block_text (block_of tag.now)) }
{
    let before = out.len();
    if !tag_block::write(tag, out) {
        return false;
    }
    if out.try_extend_from_slice(sentence).is_err() {
        out.truncate(before);
        return false;
    }
    true
}

/// Appends a line: a TAG block and a sentence. Says whether it fitted; if not, nothing is appended.
pub fn push_line(tag: &TagParts, sentence: &[u8], out: &mut Packet) -> bool
    requires { IsWritable tag.now }
    ensures fits { IsTrue result ↔ (array_vec_len out.old + length (line_text tag.now sentence.now) ≤ longest_packet) }
    ensures written { IsTrue result → out.new.items ≡ out.old.items ++ line_text tag.now sentence.now }
    // A line takes the sentence's bytes and at most 32 more.
    ensures room { array_vec_len out.old + longest_block + length sentence.now ≤ longest_packet → IsTrue result }
    // Among the first 64 lines behind the header a sentence is read back in its place, whatever follows.
    ensures again { (lines : List (List ℕ)) (tail : List ℕ) (parts : SentenceParts)
        → IsTrue result → IsSentence parts sentence.now → IsBehind lines out.old.items → length (out.new.items ++ tail) ≤ longest_datagram
        → GivesAt (read (out.new.items ++ tail)) (length lines) (line (length out.old.items) (said_by tag.now) sentence.now parts) }
    ensures unchanged { result ≡ false → out.new ≡ out.old }
{
    append_line(tag, sentence, out)
}

/// Writes the datagram of one sentence (IEC 61162-450): the header, and a line whose TAG block says the source and the count of the line, and no
/// group. So many lines were sent before on the transmission group.
#[inline]
#[tactic(auto, unfolding(crate::specs::Datagram::sentence_datagram))]
pub fn write_sentence(source: Sfi, before: u16, sentence: &[u8], out: &mut Packet)
    requires empty { out.old.items ≡ [] }
    requires room { length header + longest_block + length sentence.now ≤ longest_packet }
    ensures { out.new.items ≡ sentence_datagram source before sentence.now }
{
    let tag = TagParts {
        group: None,
        source,
        count: before % MOST_COUNT + 1,
    };
    begin(out);
    let _fits = push_line(&tag, sentence, out);
}
