//! A payload piece by piece.

ghost use Rattle.std.specs.Prelude.{◌≡◌, ◌+◌, ◌≤◌, ◌++◌, length};
ghost use Rattle.std.specs.List.{AllByRecursion, flat_map};
ghost use Rattle.pgn_profile.specs.Piece.{HasWidth, bytes_of};
ghost use Rattle.pgn_profile.specs.Part.{largest_signed, largest_unsigned, number_bytes};

use arrayvec::ArrayVec;
use byteorder::{ByteOrder, LittleEndian};

/// The bytes of a message, at most those of a fast packet.
pub type Payload = ArrayVec<u8, 223>;

/// A piece of a payload.
#[derive(Clone, Copy)]
pub enum Piece {
    /// Bytes that stand as they are.
    Bytes(&'static [u8]),
    /// One byte.
    Byte(u8),
    /// An unsigned value of so many bytes, or the largest of them where there is none.
    Unsigned(usize, Option<i64>),
    /// A signed value of so many bytes, or the largest of them where there is none.
    Signed(usize, Option<i64>),
}

impl Piece {
    /// Appends the piece's bytes.
    #[tactic(auto, using(crate::proofs::Pieces::length_number_bytes))]
    fn append(self, out: &mut Payload)
        requires room { length out.old.items + length (bytes_of self) ≤ 223 }
        requires width { HasWidth self }
        ensures { out.new.items ≡ out.old.items ++ bytes_of self }
    {
        match self {
            Piece::Bytes(bytes) => {
                let _fits = out.try_extend_from_slice(bytes);
            }
            Piece::Byte(byte) => out.push(byte),
            Piece::Unsigned(width, value) => {
                append_number(width, value.unwrap_or(most_unsigned(width)), out);
            }
            Piece::Signed(width, value) => {
                append_number(width, value.unwrap_or(most_signed(width)), out);
            }
        }
    }
}

/// The largest unsigned value of so many bytes.
fn most_unsigned(width: usize) -> i64
    requires narrowest { 1 ≤ width }
    requires widest { width ≤ 7 }
    ensures { result ≡ largest_unsigned width }
{
    i64::MAX >> (63 - 8 * width)
}

/// The largest signed value of so many bytes.
fn most_signed(width: usize) -> i64
    requires narrowest { 1 ≤ width }
    requires widest { width ≤ 8 }
    ensures { result ≡ largest_signed width }
{
    i64::MAX >> (64 - 8 * width)
}

/// Appends the lowest `width` bytes of the number as two's complement, the lowest first.
fn append_number(width: usize, number: i64, out: &mut Payload)
    requires narrowest { 1 ≤ width }
    requires widest { width ≤ 8 }
    requires room { length out.old.items + width ≤ 223 }
    ensures { out.new.items ≡ out.old.items ++ number_bytes width number }
{
    let mut bytes = [0; 8];
    LittleEndian::write_int(&mut bytes, number, width);
    let _fits = out.try_extend_from_slice(&bytes[..width]);
}

/// Appends the pieces, one after the other.
pub fn append_all(pieces: &[Piece], out: &mut Payload)
    requires room { length out.old.items + length (flat_map bytes_of pieces.now) ≤ 223 }
    requires widths { AllByRecursion HasWidth pieces.now }
    ensures { out.new.items ≡ out.old.items ++ flat_map bytes_of pieces.now }
{
    for piece in pieces {
        piece.append(out);
    }
}
