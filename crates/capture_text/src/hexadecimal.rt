//! Bytes as hexadecimal digits, two a byte, the higher half first.
//!
//! What is to be fast here goes over all digits without a choice between one and the next, so that the compiler does many at once: one
//! loop that tests them, one that takes their values and one that puts them together.
ghost use Rattle.std.specs.Prelude.{◌≡◌, ◌*◌, ◌/◌, ◌<◌, ◌≤◌, All, length, map, slice_index, take, true, false, Ok, None};
ghost use Rattle.std.specs.Char.{digit_value, is_ascii_hexdigit};
ghost use Rattle.std.specs.List.{list_all};
ghost use Rattle.std.specs.Result.{result_ok};
ghost use Rattle.hex.specs.Hex.{decode_of, encode_upper, upper_digits};
ghost use Rattle.capture_text.specs.Hexadecimal.{paired};
ghost use Rattle.capture_text.specs.Reading.{number_of};

/// Whether all are digits of either case.
#[tactic(auto, using(std::proofs::lemmas::List::Folds::list_all_more))]
pub(crate) fn all_hexadecimal(text: &[u8]) -> bool
    ensures { result ≡ list_all is_ascii_hexdigit text.now }
{
    let mut all = true;
    for byte in text {
        all = all & byte.is_ascii_hexdigit();
    }
    all
}

/// The value of a digit of either case.
fn value(digit: u8) -> u8
    requires { is_ascii_hexdigit digit ≡ true }
    ensures { result ≡ digit_value digit }
{
    digit % 16 + if digit > b'9' { 9 } else { 0 }
}

/// Puts the values of the digits into the room.
#[tactic(auto, using(crate::proofs::HexadecimalLemmas::digit_at, crate::proofs::HexadecimalLemmas::values_more))]
fn put_values(digits: &[u8], room: &mut [u8])
    requires digits { list_all is_ascii_hexdigit digits.now ≡ true }
    requires room { length room.old ≡ length digits.now }
    ensures { room.new ≡ map digit_value digits.now }
{
    for i in 0..digits.len() {
        room[i] = value(digits[i]);
    }
}

/// Puts the bytes of these values of digits into the room.
#[tactic(auto, using(crate::proofs::HexadecimalLemmas::pairs_more, crate::proofs::HexadecimalLemmas::pairs_done))]
fn put_pairs(values: &[u8], room: &mut [u8])
    requires small { All (λ v. v < 16) values.now }
    requires room { length values.now ≡ 2 * length room.old }
    ensures { room.new ≡ paired values.now }
{
    for i in 0..room.len() {
        room[i] = values[2 * i] * 16 + values[2 * i + 1];
    }
}

/// Puts the bytes of sixteen digits into the room, and says whether they are digits.
///
/// It is kept apart, as `number` is, and the bytes go by way of memory: in registers the compiler would put them together one by one.
#[inline(never)]
pub(crate) fn put_eight(digits: &[u8], room: &mut [u8]) -> bool
    requires digits { length digits.now ≡ 16 }
    requires room { length room.old ≡ 8 }
    ensures bytes { result ≡ true → decode_of digits.now ≡ Ok room.new }
    ensures digits { result ≡ true → list_all is_ascii_hexdigit digits.now ≡ true }
{
    if !all_hexadecimal(digits) {
        return false;
    }
    let mut values = [0; 16];
    put_values(digits, &mut values);
    put_pairs(&values, room);
    true
}

/// Puts the bytes of thirty-two digits into the room, and says whether they are digits.
///
/// It is kept apart, as `put_eight` is.
#[inline(never)]
fn put_sixteen(digits: &[u8], room: &mut [u8]) -> bool
    requires digits { length digits.now ≡ 32 }
    requires room { length room.old ≡ 16 }
    ensures { result ≡ true → decode_of digits.now ≡ Ok room.new }
{
    if !all_hexadecimal(digits) {
        return false;
    }
    let mut values = [0; 32];
    put_values(digits, &mut values);
    put_pairs(&values, room);
    true
}

/// Puts bytes into the room, sixteen at a time, for as long as the room has place for them and they are digits. Says how many bytes it put.
fn put_sixteens(digits: &[u8], room: &mut [u8]) -> usize
    requires { 2 * length room.old ≤ length digits.now }
    ensures within { result ≤ length room.old }
    ensures bytes { decode_of (take (2 * result) digits.now) ≡ Ok (take result room.new) }
{
    let mut done = 0;
    while room.len() - done >= 16 {
        if !put_sixteen(&digits[2 * done..2 * done + 32], &mut room[done..done + 16]) {
            return done;
        }
        done += 16;
    }
    done
}

/// Puts bytes into the room, sixteen at a time and then eight, for as long as the room has place for them and they are digits. Says how many
/// bytes it put.
fn put_eights(digits: &[u8], room: &mut [u8]) -> usize
    requires { 2 * length room.old ≤ length digits.now }
    ensures within { result ≤ length room.old }
    ensures bytes { decode_of (take (2 * result) digits.now) ≡ Ok (take result room.new) }
{
    let mut done = put_sixteens(digits, room);
    while room.len() - done >= 8 {
        if !put_eight(&digits[2 * done..2 * done + 16], &mut room[done..done + 8]) {
            return done;
        }
        done += 8;
    }
    done
}

/// Puts the bytes of all digits into the room, and says whether they are digits.
pub(crate) fn put_all(digits: &[u8], room: &mut [u8]) -> bool
    requires { length digits.now / 2 ≡ length room.old }
    ensures put { result ≡ true → decode_of digits.now ≡ Ok room.new }
    ensures none { result ≡ false → result_ok (decode_of digits.now) ≡ None }
{
    let done = put_eights(digits, room);
    match hex::decode_to_slice(&digits[2 * done..], &mut room[done..]) {
        Ok(()) => true,
        Err(_) => false,
    }
}

/// The number that eight digits write.
///
/// It is kept apart: behind a test of one of its digits the compiler would take them one by one.
#[inline(never)]
pub(crate) fn number(digits: &[u8]) -> Option<u32>
    requires { length digits.now ≡ 8 }
    ensures { result ≡ number_of digits.now }
{
    let digits = &digits[..8];
    if !all_hexadecimal(digits) {
        return None;
    }
    let mut values = [0; 8];
    put_values(digits, &mut values);
    let mut bytes = [0; 4];
    put_pairs(&values, &mut bytes);
    Some(u32::from_be_bytes(bytes))
}

/// The digit of a value, with a capital letter.
#[tactic(auto, using(crate::proofs::HexadecimalLemmas::digit_is))]
fn digit(value: u8) -> u8
    requires { value < 16 }
    ensures { result ≡ slice_index upper_digits value }
{
    if value < 10 {
        b'0' + value
    } else {
        b'A' - 10 + value
    }
}

/// Puts the digits of the bytes into the room, with capital letters.
pub(crate) fn put_digits(bytes: &[u8], room: &mut [u8])
    requires { length room.old ≡ 2 * length bytes.now }
    ensures { room.new ≡ encode_upper bytes.now }
{
    'bytes: for i in 0..bytes.len() {
        room[2 * i] = digit(bytes[i] / 16);
        room[2 * i + 1] = digit(bytes[i] % 16);
    }
}
