//! The text of a line that a command writes, put together piece by piece.
ghost use Rattle.std.specs.Prelude.{◌≡◌, ◌+◌, ◌≤◌, ◌++◌, length};
ghost use Rattle.std.specs.Fmt.{decimal};
ghost use Rattle.arrayvec.specs.ArrayVec.{array_vec_len};

use arrayvec::ArrayVec;
use unit_fraction::write_decimal;

/// The text of one line, or of a part of it.
pub(crate) type LineText = ArrayVec<u8, 82>;

pub(crate) fn append(piece: &[u8], text: &mut LineText)
    requires { array_vec_len text.old + length piece.now ≤ 82 }
    ensures text { text.new.items ≡ text.old.items ++ piece.now }
    ensures len { array_vec_len text.new ≡ array_vec_len text.old + length piece.now }
{
    let _fits = text.try_extend_from_slice(piece);
}

#[tactic(auto, using(command_line::proofs::Numbers::plain_decimal))]
pub(crate) fn append_number(number: u64, text: &mut LineText)
    requires { array_vec_len text.old + length (decimal number) ≤ 82 }
    ensures text { text.new.items ≡ text.old.items ++ decimal number }
    ensures len { array_vec_len text.new ≡ array_vec_len text.old + length (decimal number) }
{
    let _fits = write_decimal(false, number, 0, text);
}

/// A number, and what stands before it.
pub(crate) fn append_part(front: &[u8], number: u64, text: &mut LineText)
    requires { array_vec_len text.old + (length front.now + length (decimal number)) ≤ 82 }
    ensures text { text.new.items ≡ text.old.items ++ (front.now ++ decimal number) }
    ensures len { array_vec_len text.new ≡ array_vec_len text.old + (length front.now + length (decimal number)) }
{
    append(front, text);
    append_number(number, text);
}
