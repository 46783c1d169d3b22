//! The sum behind `*`: the exclusive or of the bytes before it, in two hexadecimal digits.
ghost use Rattle.std.specs.Prelude.{◌≡◌, ◌/◌, ◌%◌, ◌<◌, ◌≤◌, [], ◌∷◌, bit_xor};
ghost use Rattle.std.specs.Char.{digit_value};
ghost use Rattle.std.specs.List.{fold};
ghost use Rattle.sentence_text.specs.Sentence.{capital_digit, xor_of};
ghost use Rattle.sentence_text.specs.Sum as spec;

/// What keeps two bytes from being the digits of a sum.
#[derive(Clone, Copy)]
pub enum SumFault {
    /// The first is no hexadecimal digit.
    First,
    /// The first is one, and the second is none.
    Second,
    /// They write another number.
    Differs,
}

impl SumFault {
    /// How many bytes behind the `*` the digit at fault stands, 1 or 2; the first, where the sum differs.
    pub fn digit_place(self) -> usize
        ensures place { result ≡ spec.digit_place self }
        ensures near { result ≤ 2 }
    {
        match self {
            SumFault::First | SumFault::Differs => 1,
            SumFault::Second => 2,
        }
    }
}

/// The exclusive or of the bytes.
pub fn xor(bytes: &[u8]) -> u8
    ensures { result ≡ xor_of bytes.now }
{
    bytes.iter().fold(0, |sum, byte| sum ^ byte)
}

/// The two digits that write a sum, with capital letters.
pub fn sum_digits(sum: u8) -> [u8; 2]
    ensures { result ≡ capital_digit (sum / 16) ∷ capital_digit (sum % 16) ∷ [] }
{
    [digit(sum / 16), digit(sum % 16)]
}

/// What keeps these two bytes, digits of either case, from writing this sum.
#[tactic(auto, unfolding(crate::specs::Sum::sum_fault))]
pub fn sum_fault(sum: u8, high: u8, low: u8) -> Option<SumFault>
    ensures { result ≡ spec.sum_fault sum high low }
{
    let (high, low) = (value_of(high), value_of(low));
    if high >= 16 {
        return Some(SumFault::First);
    }
    if low >= 16 {
        return Some(SumFault::Second);
    }
    if high * 16 + low != sum {
        return Some(SumFault::Differs);
    }
    None
}

fn digit(value: u8) -> u8
    requires { value < 16 }
    ensures { result ≡ capital_digit value }
{
    if value < 10 {
        b'0' + value
    } else {
        b'A' + (value - 10)
    }
}

/// The value of a hexadecimal digit, or 16 and more.
fn value_of(digit: u8) -> u8
    ensures { result ≡ digit_value digit }
{
    match (digit as char).to_digit(36) {
        Some(value) => value as u8,
        None => 36,
    }
}
