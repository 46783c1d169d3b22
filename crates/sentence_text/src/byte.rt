ghost use Rattle.std.specs.Prelude.{◌≡◌, slice_index};
ghost use Rattle.std.specs.List.{list_all};
ghost use Rattle.sentence_text.specs.Byte as class;

pub(crate) fn is_capital(byte: u8) -> bool
    ensures { result ≡ class.is_capital byte }
{
    byte.is_ascii_uppercase()
}

pub(crate) fn is_digit(byte: u8) -> bool
    ensures { result ≡ class.is_digit byte }
{
    byte.is_ascii_digit()
}

/// The class of each byte, by its code: `a` of those that an address has, `f` of those that only fields have, `-` of all others. One look
/// here takes half as long as to compare with the ranges.
static CLASSES: [u8; 256] = *b"\
    --------------------------------\
    f-ff-fffff-fffffaaaaaaaaaaffffff\
    faaaaaaaaaaaaaaaaaaaaaaaaaaf-fff\
    fffffffffffffffffffffffffffffff-\
    --------------------------------\
    --------------------------------\
    --------------------------------\
    --------------------------------";

#[tactic(auto, using(crate::proofs::Classes::address_is))]
pub(crate) fn is_address_byte(byte: u8) -> bool
    ensures { result ≡ class.is_address_byte byte }
{
    CLASSES[usize::from(byte)] == b'a'
}

#[tactic(auto, using(crate::proofs::Classes::body_is))]
pub(crate) fn is_body_byte(byte: u8) -> bool
    ensures { result ≡ class.is_body_byte byte }
{
    CLASSES[usize::from(byte)] >= b'a'
}

pub(crate) fn all_capital(bytes: &[u8]) -> bool
    ensures { result ≡ list_all class.is_capital bytes.now }
{
    bytes.iter().all(|byte| is_capital(*byte))
}

/// Whether all are decimal digits.
pub fn all_digits(bytes: &[u8]) -> bool
    ensures { result ≡ list_all class.is_digit bytes.now }
{
    bytes.iter().all(|byte| is_digit(*byte))
}

pub(crate) fn all_address(bytes: &[u8]) -> bool
    ensures { result ≡ list_all class.is_address_byte bytes.now }
{
    bytes.iter().all(|byte| is_address_byte(*byte))
}

/// The byte at a place; 0, which stands nowhere in a sentence or a TAG block, past the end.
pub fn byte_at(bytes: &[u8], place: usize) -> u8
    ensures { result ≡ slice_index bytes.now place }
{
    if place < bytes.len() { bytes[place] } else { 0 }
}
