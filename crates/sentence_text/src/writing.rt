ghost use Rattle.std.specs.Prelude.{◌≡◌, ◌+◌, ◌<◌, ◌≤◌, [], ◌∷◌, ◌++◌, length, IsTrue, ◌↔◌, false, ◌/◌, ◌%◌, Ok};
ghost use Rattle.std.specs.List.{list_all};
ghost use Rattle.arrayvec.specs.ArrayVec.{array_vec_len};
ghost use Rattle.sentence_text.specs.Byte.{is_address_byte, is_body_byte};
ghost use Rattle.sentence_text.specs.Sentence.{IsSentence, ended, longest_written, parts_of, sentence};
ghost use Rattle.sentence_text.specs.Reading.{read};

use crate::sum::{sum_digits, xor};
use arrayvec::ArrayVec;

/// The most bytes that a sentence is written with, CR and LF included (IEC 61162-1).
const MOST: usize = 82;

/// `$`, five characters, a comma, `*`, two digits, CR and LF.
const FRAME: usize = 12;

fn append(piece: &[u8], out: &mut ArrayVec<u8, 82>)
    requires { array_vec_len out.old + length piece.now ≤ longest_written }
    ensures { out.new.items ≡ out.old.items ++ piece.now }
{
    let _fits = out.try_extend_from_slice(piece);
}

/// Begins a sentence, whose fields come behind this, each behind its comma: `$`, the talker and the formatter.
pub fn begin(talker: [u8; 2], formatter: [u8; 3], out: &mut ArrayVec<u8, 82>)
    requires empty { out.old.items ≡ [] }
    ensures { out.new.items ≡ 36 ∷ talker ++ formatter }
{
    out.push(b'$');
    append(&talker, out);
    append(&formatter, out);
}

/// Ends a sentence: `*`, the sum of what stands behind the `$`, CR and LF.
pub fn end(out: &mut ArrayVec<u8, 82>)
    requires begun { 1 ≤ array_vec_len out.old }
    requires room { array_vec_len out.old + 5 ≤ longest_written }
    ensures { out.new.items ≡ ended out.old.items }
{
    let sum = xor(&out[1..]);
    let [high, low] = sum_digits(sum);
    out.push(b'*');
    out.push(high);
    out.push(low);
    out.push(b'\r');
    out.push(b'\n');
}

/// Writes `$`, the address, a comma and the body, and behind `*` their sum. The body is the fields, divided by
/// commas. Says whether the sentence has at most 82 bytes; if not, nothing is written.
pub fn write(talker: [u8; 2], formatter: [u8; 3], body: &[u8], out: &mut ArrayVec<u8, 82>) -> bool
    requires empty { out.old.items ≡ [] }
    requires talker { IsTrue (list_all is_address_byte talker) }
    requires formatter { IsTrue (list_all is_address_byte formatter) }
    requires body { IsTrue (list_all is_body_byte body.now) }
    ensures fits { IsTrue result ↔ (length (sentence (parts_of talker formatter body.now)) ≤ longest_written) }
    ensures written { IsTrue result → out.new.items ≡ sentence (parts_of talker formatter body.now) }
    ensures grammar { IsTrue result → IsSentence (parts_of talker formatter body.now) out.new.items }
    ensures again { IsTrue result → read out.new.items ≡ Ok (parts_of talker formatter body.now) }
    ensures unchanged { result ≡ false → out.new ≡ out.old }
{
    if body.len() > MOST - FRAME {
        return false;
    }
    begin(talker, formatter, out);
    out.push(b',');
    append(body, out);
    end(out);
    true
}
