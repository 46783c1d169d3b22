ghost use Rattle.std.specs.Prelude.{◌≡◌, ◌+◌, ◌/◌, ◌%◌, ◌≤◌, ◌<◌, ◌^◌, ◌++◌, length, IsTrue, false, nat_lt, unsigned_abs};
ghost use Rattle.std.specs.Fmt.{decimal};
ghost use Rattle.unit_fraction.specs.Digits.{minus};
ghost use Rattle.unit_fraction.specs.Text.{decimal_text, decimals};
ghost use Rattle.sentence_fields.specs.Field.{IsCounted, IsPrintable, count, degrees_text, is_negative, is_sound, text_of, width_of, degrees};

use crate::written_unit::{DEGREES, WrittenUnit};
use arrayvec::ArrayVec;
use unit_fraction::{Fraction, scale, write_decimal};

/// One field of a sentence. A raw value that isn't there is an empty field.
#[derive(Clone, Copy, Default)]
pub enum Field {
    #[default]
    Empty,
    /// A letter of a unit, a status or a mode.
    Letter(u8),
    /// A word, such as the name of a transducer.
    Word(&'static [u8]),
    /// A raw value in a unit, with its sign.
    Decimal(Option<i64>, WrittenUnit),
    /// The same without its sign.
    Magnitude(Option<i64>, WrittenUnit),
    /// The letter that stands for a raw value's sign: the first from zero on, the second below. It goes by
    /// the value as it is printed.
    Side(Option<i64>, WrittenUnit, u8, u8),
    /// A heading, a course or the angle of the wind in degrees, below 360.
    Angle(Option<i64>),
    /// Latitude or longitude in degrees of so many digits and minutes with four decimals.
    Degrees(Option<i64>, WrittenUnit, u8),
    /// A time of day as hhmmss.ss.
    Time(Option<i64>),
    /// The last digits of a number, so many.
    Digits(Option<u64>, u8),
    /// A number of satellites, of two digits at least.
    Satellites(Option<i64>),
}

impl Field {
    /// Appends the field's text.
    pub(crate) fn append(&self, out: &mut ArrayVec<u8, 82>)
        requires printable { IsPrintable self.now }
        requires room { length out.old.items + width_of self.now ≤ 82 }
        ensures { out.new.items ≡ out.old.items ++ text_of self.now }
    {
        match self {
            Field::Empty => {}
            Field::Letter(letter) => out.push(*letter),
            Field::Word(word) => append_word(word, out),
            Field::Decimal(raw, unit) => append_decimal(*raw, *unit, out),
            Field::Magnitude(raw, unit) => append_magnitude(*raw, *unit, out),
            Field::Side(raw, unit, positive, negative) => append_side(
                *raw, *unit, *positive, *negative, out,
            ),
            Field::Angle(raw) => append_angle(*raw, out),
            Field::Degrees(raw, unit, width) => append_degrees(*raw, *unit, *width, out),
            Field::Time(raw) => append_time(*raw, out),
            Field::Digits(number, width) => {
                if let Some(number) = number {
                    append_digits(*number, *width, out);
                }
            }
            Field::Satellites(raw) => append_satellites(*raw, out),
        }
    }
}

/// Appends a word.
///
/// It is kept apart: few fields are words, and the loop over all of them would keep what this needs.
#[inline(never)]
fn append_word(word: &[u8], out: &mut ArrayVec<u8, 82>)
    requires { length out.old.items + length word.now ≤ 82 }
    ensures { out.new.items ≡ out.old.items ++ word.now }
{
    let _fits = out.try_extend_from_slice(word);
}

/// The raw value in the unit, as a count of its last decimals.
fn count(raw: i64, unit: WrittenUnit) -> i128
    requires { IsTrue (nat_lt 0 unit.den) }
    ensures { result ≡ count unit raw }
{
    let fraction = Fraction {
        num: unit.num,
        den: unit.den,
    };
    scale(fraction, raw)
}

/// Whether that count is below zero, and how large it is.
fn signed_size(raw: i64, unit: WrittenUnit) -> (bool, u64)
    requires sound { IsTrue (is_sound unit) }
    requires counted { unsigned_abs raw ≤ unit.largest }
    ensures sign { result.0 ≡ is_negative (count unit raw) }
    ensures value { result.1 ≡ unsigned_abs (count unit raw) }
    ensures small { result.1 < 10 ^ unit.digits }
{
    let counted = count(raw, unit);
    (counted < 0, counted.unsigned_abs() as u64)
}

/// Appends the decimal, for which there is room. One of few digits with one or two decimals, as nearly all are, is put where it stands.
#[tactic(auto, using(crate::proofs::Bodies::sign_first, crate::proofs::Bodies::sign_room))]
fn append_number(negative: bool, digits: u64, places: u8, out: &mut ArrayVec<u8, 82>)
    requires places { places ≤ 12 }
    requires room { length out.old.items + length (decimal_text negative digits places) ≤ 82 }
    ensures { out.new.items ≡ out.old.items ++ decimal_text negative digits places }
{
    if digits >= 10_000_000 || places == 0 || places > 2 {
        let _fits = write_decimal(negative, digits, places, out);
        return;
    }
    append_minus(negative && digits != 0, out);
    if places == 1 {
        append_tenths(digits, out);
    } else {
        append_hundredths(digits, out);
    }
}

/// Appends a minus, where there is one.
fn append_minus(negative: bool, out: &mut ArrayVec<u8, 82>)
    requires { length out.old.items + length (minus negative) ≤ 82 }
    ensures { out.new.items ≡ out.old.items ++ minus negative }
{
    if negative {
        out.push(b'-');
    }
}

/// Appends a number of which these are the tenths.
#[tactic(auto, using(crate::proofs::Bodies::tenths_room))]
fn append_tenths(tenths: u64, out: &mut ArrayVec<u8, 82>)
    requires few { tenths < 10 ^ 7 }
    requires room { length out.old.items + length (decimal_text false tenths 1) ≤ 82 }
    ensures { out.new.items ≡ out.old.items ++ decimal_text false tenths 1 }
{
    append_whole(tenths / 10, out);
    out.push(b'.');
    out.push(b'0' + (tenths % 10) as u8);
}

/// Appends a number of which these are the hundredths.
#[tactic(auto, using(crate::proofs::Bodies::hundredths_room))]
fn append_hundredths(hundredths: u64, out: &mut ArrayVec<u8, 82>)
    requires few { hundredths < 10 ^ 7 }
    requires room { length out.old.items + length (decimal_text false hundredths 2) ≤ 82 }
    ensures { out.new.items ≡ out.old.items ++ decimal_text false hundredths 2 }
{
    append_whole(hundredths / 100, out);
    out.push(b'.');
    append_two(hundredths, out);
}

/// Appends the raw value, with its sign where that is asked for.
fn append_decimal(raw: Option<i64>, unit: WrittenUnit, out: &mut ArrayVec<u8, 82>)
    requires sound { IsTrue (is_sound unit) }
    requires counted { IsCounted unit raw }
    requires room { length out.old.items + (unit.digits + 2) ≤ 82 }
    ensures { out.new.items ≡ out.old.items ++ text_of (Field.Decimal raw unit) }
{
    if let Some(raw) = raw {
        let (negative, size) = signed_size(raw, unit);
        append_number(negative, size, unit.places, out);
    }
}

/// Appends the raw value without its sign.
fn append_magnitude(raw: Option<i64>, unit: WrittenUnit, out: &mut ArrayVec<u8, 82>)
    requires sound { IsTrue (is_sound unit) }
    requires counted { IsCounted unit raw }
    requires room { length out.old.items + (unit.digits + 1) ≤ 82 }
    ensures { out.new.items ≡ out.old.items ++ text_of (Field.Magnitude raw unit) }
{
    if let Some(raw) = raw {
        let (_, size) = signed_size(raw, unit);
        append_number(false, size, unit.places, out);
    }
}

/// Appends the letter of the raw value's sign.
fn append_side(
    raw: Option<i64>,
    unit: WrittenUnit,
    positive: u8,
    negative: u8,
    out: &mut ArrayVec<u8, 82>,
)
    requires den { IsTrue (nat_lt 0 unit.den) }
    requires room { length out.old.items + 1 ≤ 82 }
    ensures { out.new.items ≡ out.old.items ++ text_of (Field.Side raw unit positive negative) }
{
    if let Some(raw) = raw {
        out.push(if count(raw, unit) < 0 {
            negative
        } else {
            positive
        });
    }
}

/// The angle in tenths of a degree, all round being zero.
#[tactic(auto, using(crate::proofs::Bodies::angle_fits))]
fn tenths(raw: i64) -> u64
    ensures { result ≡ unsigned_abs (count degrees raw) % 3600 }
{
    count(raw, DEGREES).unsigned_abs() as u64 % 3_600
}

/// Appends the angle.
#[tactic(auto, using(crate::proofs::Bodies::angle_room))]
fn append_angle(raw: Option<i64>, out: &mut ArrayVec<u8, 82>)
    requires { length out.old.items + 5 ≤ 82 }
    ensures { out.new.items ≡ out.old.items ++ text_of (Field.Angle raw) }
{
    if let Some(raw) = raw {
        append_tenths(tenths(raw), out);
    }
}

/// Appends degrees, and minutes with four decimals.
fn append_degrees(raw: Option<i64>, unit: WrittenUnit, width: u8, out: &mut ArrayVec<u8, 82>)
    requires sound { IsTrue (is_sound unit) }
    requires counted { IsCounted unit raw }
    requires room { length out.old.items + (width + 7) ≤ 82 }
    ensures { out.new.items ≡ out.old.items ++ text_of (Field.Degrees raw unit width) }
{
    if let Some(raw) = raw {
        let (_, size) = signed_size(raw, unit);
        append_minutes(size, width, out);
    }
}

/// Appends a count of ten-thousandths of a minute as degrees and minutes.
fn append_minutes(minutes: u64, width: u8, out: &mut ArrayVec<u8, 82>)
    requires { length out.old.items + (width + 7) ≤ 82 }
    ensures { out.new.items ≡ out.old.items ++ degrees_text width minutes }
{
    append_digits(minutes / 600_000, width, out);
    append_two(minutes % 600_000 / 10_000, out);
    out.push(b'.');
    append_four(minutes % 10_000, out);
}

/// Appends the time of day, cut off to hundredths of a second.
fn append_time(raw: Option<i64>, out: &mut ArrayVec<u8, 82>)
    requires { length out.old.items + 9 ≤ 82 }
    ensures { out.new.items ≡ out.old.items ++ text_of (Field.Time raw) }
{
    if let Some(raw) = raw {
        let hundredths = raw.unsigned_abs() / 100;
        append_two(hundredths / 360_000, out);
        append_two(hundredths / 6_000 % 60, out);
        append_two(hundredths / 100 % 60, out);
        out.push(b'.');
        append_two(hundredths % 100, out);
    }
}

/// Appends the number of satellites.
#[tactic(auto, using(crate::proofs::Bodies::few_digits))]
fn append_satellites(raw: Option<i64>, out: &mut ArrayVec<u8, 82>)
    requires few { IsPrintable (Field.Satellites raw) }
    requires room { length out.old.items + 3 ≤ 82 }
    ensures { out.new.items ≡ out.old.items ++ text_of (Field.Satellites raw) }
{
    if let Some(raw) = raw {
        let number = raw.unsigned_abs();
        if number < 10 {
            append_two(number, out);
        } else {
            append_few(number, out);
        }
    }
}

/// Appends a number below a million without needless zeros.
fn append_whole(number: u64, out: &mut ArrayVec<u8, 82>)
    requires below { number < 10 ^ 6 }
    requires room { length out.old.items + length (decimal number) ≤ 82 }
    ensures text { out.new.items ≡ out.old.items ++ decimal number }
{
    if number < 1_000 {
        append_few(number, out);
    } else {
        append_few(number / 1_000, out);
        append_three(number, out);
    }
}

/// Appends a number below a thousand without needless zeros.
#[tactic(auto, using(crate::proofs::Bodies::one_digit, crate::proofs::Bodies::two_digits, crate::proofs::Bodies::three_digits, crate::proofs::Bodies::one_at_least, crate::proofs::Bodies::two_at_least, crate::proofs::Bodies::three_at_least))]
fn append_few(number: u64, out: &mut ArrayVec<u8, 82>)
    requires below { number < 1000 }
    requires room { length out.old.items + length (decimal number) ≤ 82 }
    ensures text { out.new.items ≡ out.old.items ++ decimal number }
{
    match number {
        0..=9 => out.push(b'0' + number as u8),
        10..=99 => append_two(number, out),
        _ => append_three(number, out),
    }
}

/// Appends the last three digits of the number.
fn append_three(number: u64, out: &mut ArrayVec<u8, 82>)
    requires { length out.old.items + 3 ≤ 82 }
    ensures text { out.new.items ≡ out.old.items ++ decimals 3 number }
    ensures len { length out.new.items ≡ length out.old.items + 3 }
{
    out.push(b'0' + (number / 100 % 10) as u8);
    append_two(number, out);
}

/// Appends the last two digits of the number.
fn append_two(number: u64, out: &mut ArrayVec<u8, 82>)
    requires { length out.old.items + 2 ≤ 82 }
    ensures text { out.new.items ≡ out.old.items ++ decimals 2 number }
    ensures len { length out.new.items ≡ length out.old.items + 2 }
{
    out.push(b'0' + (number / 10 % 10) as u8);
    out.push(b'0' + (number % 10) as u8);
}

/// Appends the last four digits of the number.
fn append_four(number: u64, out: &mut ArrayVec<u8, 82>)
    requires { length out.old.items + 4 ≤ 82 }
    ensures text { out.new.items ≡ out.old.items ++ decimals 4 number }
    ensures len { length out.new.items ≡ length out.old.items + 4 }
{
    append_two(number / 100, out);
    append_two(number, out);
}

/// Appends the last `width` digits of the number.
fn append_digits(number: u64, width: u8, out: &mut ArrayVec<u8, 82>)
    requires { length out.old.items + width ≤ 82 }
    ensures text { out.new.items ≡ out.old.items ++ decimals width number }
    ensures len { length out.new.items ≡ length out.old.items + width }
{
    match width {
        0 => {}
        2 => append_two(number, out),
        3 => append_three(number, out),
        4 => append_four(number, out),
        _ => {
            append_digits(number / 10, width - 1, out);
            out.push(b'0' + (number % 10) as u8);
        }
    }
}
