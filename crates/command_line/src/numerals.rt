//! Numbers among the words of the command line.
ghost use Rattle.std.specs.Prelude.{◌≡◌, ◌<◌, ◌^◌, ◌↔◌, decimal, ℕ, Some, IfSome, IsTrue};
ghost use Rattle.command_line.specs.Words.{IsNumber};

use arrayvec::ArrayVec;
use unit_fraction::write_decimal;

/// The number of this range that a word spells in decimal digits, without a leading zero.
pub fn number_between(word: &str, least: u64, most: u64) -> Option<u64>
    ensures found { IfSome result (λ n. IsNumber least most n word.now) }
    ensures only { (n : ℕ) → IsNumber least most n word.now → result ≡ Some n }
{
    match number_of(word) {
        Some(number) if least <= number && number <= most => Some(number),
        _ => None,
    }
}

/// The number that a word spells in decimal digits, without a leading zero.
fn number_of(word: &str) -> Option<u64>
    ensures found { IfSome result (λ n. word.now ≡ decimal n) }
    ensures only { (n : ℕ) → n < 2 ^ 64 → word.now ≡ decimal n → result ≡ Some n }
{
    match word.parse::<u64>() {
        Ok(number) if is_spelled(number, word) => Some(number),
        _ => None,
    }
}

/// A number in decimal digits.
#[tactic(auto, using(crate::proofs::Numbers::digits_of_a_long, crate::proofs::Numbers::plain_decimal))]
fn digits_of(number: u64) -> ArrayVec<u8, 82>
    ensures { result.items ≡ decimal number }
{
    let mut text = ArrayVec::new();
    let _fits = write_decimal(false, number, 0, &mut text);
    text
}

/// Whether a word is a number as it is written: with no sign, and no leading zero.
fn is_spelled(number: u64, word: &str) -> bool
    ensures { IsTrue result ↔ (word.now ≡ decimal number) }
{
    digits_of(number).as_slice() == word.as_bytes()
}
