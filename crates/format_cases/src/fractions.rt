use arrayvec::ArrayVec;
use unit_fraction::{
    Decimal, DecimalFault, Fraction, read_decimal, scale, scale_decimal, write_decimal,
};

const DEGREES: Fraction = Fraction {
    num: 180_000_000_000_000,
    den: 3_141_592_653_589_793,
};

const KNOTS: Fraction = Fraction { num: 900, den: 463 };

const HALF: Fraction = Fraction { num: 1, den: 2 };

const MOST: Fraction = Fraction {
    num: u64::MAX,
    den: 1,
};

const LEAST: Fraction = Fraction {
    num: 1,
    den: u64::MAX,
};

/// Fractions, raw values and what each is scaled to: rounded once, halves away from zero, and at the ends of the range.
const SCALED: [(Fraction, i64, i128); 13] = [
    (DEGREES, 31416, 1800),
    (DEGREES, 62832, 3600),
    (DEGREES, 15708, 900),
    (KNOTS, 463, 900),
    (KNOTS, 1000, 1944),
    (HALF, 1, 1),
    (HALF, -1, -1),
    (HALF, 3, 2),
    (HALF, -3, -2),
    (HALF, 0, 0),
    (
        MOST,
        i64::MIN,
        -170_141_183_460_469_231_722_463_931_679_029_329_920,
    ),
    (LEAST, i64::MIN, -1),
    (LEAST, i64::MAX, 0),
];

#[test]
fn a_conversion_rounds_once_and_halves_go_away_from_zero(rt: HostRuntime) {
    for (fraction, raw, value) in &SCALED {
        assert!(rt; scale(*fraction, *raw) == *value);
    }
}

/// Sign, digits and places, and how the number is written.
const NUMBERS: [(bool, u64, u8, &[u8]); 8] = [
    (false, 0, 0, b"0"),
    (true, 0, 1, b"0.0"),
    (false, 900, 1, b"90.0"),
    (true, 5, 2, b"-0.05"),
    (false, 1234, 0, b"1234"),
    (true, 1, 0, b"-1"),
    (false, 7, 12, b"0.000000000007"),
    (true, u64::MAX, 3, b"-18446744073709551.615"),
];

/// Whether the number is written so.
fn is_written(negative: bool, digits: u64, places: u8, text: &[u8]) -> bool {
    let mut out = ArrayVec::new();
    places <= 12 && write_decimal(negative, digits, places, &mut out) && out.as_slice() == text
}

#[test]
fn a_number_is_written_with_its_decimals(rt: HostRuntime) {
    for (negative, digits, places, text) in &NUMBERS {
        assert!(rt; is_written(*negative, *digits, *places, text));
    }
}

/// Decimals: sign, digits and places.
const DECIMALS: [(&[u8], bool, u64, u8); 9] = [
    (b"0", false, 0, 0),
    (b"-0", true, 0, 0),
    (b"90.0", false, 900, 1),
    (b"-12.34", true, 1234, 2),
    (b".5", false, 5, 1),
    (b"5.", false, 5, 0),
    (b"007", false, 7, 0),
    (b"999999999999", false, 999_999_999_999, 0),
    (b"0.00000000001", false, 1, 11),
];

/// Texts that are no decimal, and the first fault of each.
const NO_DECIMALS: [(&[u8], DecimalFault); 9] = [
    (b"", DecimalFault::Empty),
    (b"-", DecimalFault::Byte(1)),
    (b".", DecimalFault::Byte(1)),
    (b"+1", DecimalFault::Byte(0)),
    (b"1-", DecimalFault::Byte(1)),
    (b"1.2.3", DecimalFault::Byte(3)),
    (b"0000000000001", DecimalFault::Long),
    (b"0.000000000001", DecimalFault::Long),
    (b"0000000000001x", DecimalFault::Byte(13)),
];

/// Whether the text is read as this decimal.
fn is_decimal(text: &[u8], negative: bool, digits: u64, places: u8) -> bool {
    match read_decimal(text) {
        Ok(read) => read.negative == negative && read.digits == digits && read.places == places,
        Err(_) => false,
    }
}

#[test]
fn a_decimal_is_read(rt: HostRuntime) {
    for (text, negative, digits, places) in &DECIMALS {
        assert!(rt; is_decimal(text, *negative, *digits, *places));
    }
}

#[test]
fn the_first_fault_of_a_decimal_is_named(rt: HostRuntime) {
    for (text, fault) in &NO_DECIMALS {
        assert!(rt; read_decimal(text).err() == Some(*fault));
    }
}

const RAW_DEGREES: Fraction = Fraction {
    num: 3_141_592_653_589_793,
    den: 18_000_000_000_000,
};

const RAW_KNOTS: Fraction = Fraction { num: 463, den: 9 };

/// Whether the decimal is scaled so to raw degrees, or to raw knots.
fn is_raw(knots: bool, negative: bool, digits: u64, places: u8, raw: i128) -> bool {
    if digits > 999_999_999_999 || places > 12 {
        return false;
    }
    let decimal = Decimal {
        negative,
        digits,
        places,
    };
    scale_decimal(if knots { RAW_KNOTS } else { RAW_DEGREES }, &decimal) == raw
}

/// Whether a decimal is one of knots, its sign, digits and places, and its raw value.
const RAW: [(bool, bool, u64, u8, i128); 5] = [
    (false, false, 900, 1, 15708),
    (false, false, 3600, 1, 62832),
    (true, false, 1944, 2, 1000),
    (true, true, 1944, 2, -1000),
    (true, true, 0, 2, 0),
];

#[test]
fn a_decimal_is_scaled_by_its_value(rt: HostRuntime) {
    for (knots, negative, digits, places, raw) in &RAW {
        assert!(rt; is_raw(*knots, *negative, *digits, *places, *raw));
    }
}

/// How many bytes there are once so many spaces and this number, without a sign, are written.
fn length_behind(spaces: usize, digits: u64, places: u8) -> usize {
    let mut out = ArrayVec::new();
    for _ in 0..spaces {
        let _fits = out.try_push(b' ');
    }
    let _fits = places <= 12 && write_decimal(false, digits, places, &mut out);
    out.len()
}

#[test]
fn what_does_not_fit_changes_nothing(rt: HostRuntime) {
    assert!(rt; length_behind(79, 900, 1) == 79);
    assert!(rt; length_behind(79, 100, 0) == 82);
}
