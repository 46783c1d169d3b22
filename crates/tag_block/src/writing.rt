ghost use Rattle.std.specs.Prelude.{◌≡◌, ◌+◌, ◌/◌, ◌%◌, ◌≤◌, ◌↔◌, [], ◌∷◌, ◌++◌, List, ℕ, length, false, IsTrue, Ok};
ghost use Rattle.std.specs.Fmt.{decimal};
ghost use Rattle.arrayvec.specs.ArrayVec.{array_vec_len};
ghost use Rattle.sentence_text.specs.Names.{IsSfi};
ghost use Rattle.tag_block.specs.Tag.{IsTag, BeginsNoBlock, block_text, content, parameter_text, most_count};
ghost use Rattle.tag_block.specs.Reading.{read};
ghost use Rattle.tag_block.specs.Writing.{IsWritable, IsWritableGroup, longest_block, longest_packet, group_parameter, source_parameter, count_parameter, capital_digit, block_with, block_of, said_by};

use crate::group_part::GroupPart;
use arrayvec::ArrayVec;
use sentence_text::{Sfi, sum_digits, xor};

/// The greatest count of a line, behind which counts begin again with 1.
pub const MOST_COUNT: u16 = 999;

/// The greatest code by which a group of lines is written, behind which codes begin again with 1.
pub const MOST_CODE: u8 = 99;

/// The bytes of a datagram that is sent.
pub type Packet = ArrayVec<u8, 512>;

/// What the TAG block of a written line says.
#[derive(Clone, Copy)]
pub struct TagParts {
    pub group: Option<GroupPart>,
    pub source: Sfi,
    /// The count of the line on its transmission group, from 1 to 999.
    pub count: u16,
}

/// More than the longest block, `\g:9-9-99,s:II0001,n:999*00\`.
type BlockText = ArrayVec<u8, 32>;

fn append(piece: &[u8], text: &mut BlockText)
    requires { array_vec_len text.old + length piece.now ≤ longest_block }
    ensures { text.new.items ≡ text.old.items ++ piece.now }
{
    let _fits = text.try_extend_from_slice(piece);
}

/// The number without zeros in front.
#[tactic(auto, using(crate::proofs::Decimal::one_digit, crate::proofs::Decimal::two_digits, crate::proofs::Decimal::three_digits))]
fn append_number(n: u16, text: &mut BlockText)
    requires small { n ≤ most_count }
    requires fits { array_vec_len text.old + 3 ≤ longest_block }
    ensures text { text.new.items ≡ text.old.items ++ decimal n }
    ensures len { array_vec_len text.new ≤ array_vec_len text.old + 3 }
{
    let (hundreds, tens, ones) = (
        b'0' + (n / 100) as u8,
        b'0' + (n / 10 % 10) as u8,
        b'0' + (n % 10) as u8,
    );
    if n < 10 {
        append(&[ones], text);
    } else if n < 100 {
        append(&[tens, ones], text);
    } else {
        append(&[hundreds, tens, ones], text);
    }
}

/// `g:1-2-34`.
fn append_group(part: &GroupPart, text: &mut BlockText)
    requires group { IsWritableGroup part.now }
    requires fits { array_vec_len text.old + 9 ≤ longest_block }
    ensures text { text.new.items ≡ text.old.items ++ parameter_text (group_parameter part.now) }
    ensures len { array_vec_len text.new ≤ array_vec_len text.old + 9 }
{
    append(
        &[
            b'g',
            b':',
            b'0' + part.number,
            b'-',
            b'0' + part.total,
            b'-',
        ],
        text,
    );
    append_number(part.code, text);
}

/// `s:II0001,n:1`.
fn append_source(source: &Sfi, count: u16, text: &mut BlockText)
    requires small { count ≤ most_count }
    requires fits { array_vec_len text.old + 14 ≤ longest_block }
    ensures text { text.new.items ≡ text.old.items ++ content (source_parameter source.now) (count_parameter count ∷ []) }
    ensures len { array_vec_len text.new ≤ array_vec_len text.old + 14 }
    ensures sfi { IsSfi source.now }
{
    append(b"s:", text);
    append(source.as_bytes(), text);
    append(b",n:", text);
    append_number(count, text);
}

fn append_content(parts: &TagParts, text: &mut BlockText)
    requires parts { IsWritable parts.now }
    requires fits { array_vec_len text.old ≤ 1 }
    ensures text { text.new.items ≡ text.old.items ++ content (block_of parts.now).first (block_of parts.now).others }
    ensures len { array_vec_len text.new ≤ 25 }
    ensures sfi { IsSfi parts.now.source }
{
    match &parts.group {
        Some(part) => {
            append_group(part, text);
            append(b",", text);
            append_source(&parts.source, parts.count, text);
        }
        None => append_source(&parts.source, parts.count, text),
    }
}

/// `*`, the two digits of the sum, and `\`.
fn append_end(sum: u8, text: &mut BlockText)
    requires { array_vec_len text.old + 4 ≤ longest_block }
    ensures { text.new.items ≡ text.old.items ++ 42 ∷ capital_digit (sum / 16) ∷ capital_digit (sum % 16) ∷ 92 ∷ [] }
{
    append(b"*", text);
    append(&sum_digits(sum), text);
    append(b"\\", text);
}

fn block(parts: &TagParts) -> BlockText
    requires { IsWritable parts.now }
    ensures text { result.items ≡ block_text (block_of parts.now) }
    ensures short { length (block_text (block_of parts.now)) ≤ longest_block }
    ensures sfi { IsSfi parts.now.source }
{
    let mut text = BlockText::new();
    append(b"\\", &mut text);
    append_content(parts, &mut text);
    let sum = xor(&text[1..]);
    append_end(sum, &mut text);
    text
}

/// Appends one TAG block: the group where there is one, the source and the count. Says whether it fitted; if not,
/// nothing is appended. A block has at most 32 bytes.
///
/// The number is 1 to the total, the total 2 to 9, the code 1 to 99, and the count 1 to 999.
pub fn write(parts: &TagParts, out: &mut Packet) -> bool
    requires { IsWritable parts.now }
    ensures fits { IsTrue result ↔ (array_vec_len out.old + length (block_text (block_of parts.now)) ≤ longest_packet) }
    ensures short { length (block_text (block_of parts.now)) ≤ longest_block }
    ensures room { array_vec_len out.old + longest_block ≤ longest_packet → IsTrue result }
    ensures written { IsTrue result → out.new.items ≡ out.old.items ++ block_text (block_of parts.now) }
    ensures grammar { IsTag (said_by parts.now) (block_text (block_of parts.now)) }
    ensures again { (rest : List ℕ) → BeginsNoBlock rest
        → read (block_text (block_of parts.now) ++ rest) ≡ Ok (said_by parts.now, length (block_text (block_of parts.now))) }
    ensures unchanged { result ≡ false → out.new ≡ out.old }
{
    out.try_extend_from_slice(&block(parts)).is_ok()
}
