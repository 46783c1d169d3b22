//! The fields of a report.
ghost use Rattle.std.specs.Prelude.{◌≡◌, ◌≤◌, ◌+◌, ◌<◌, ◌^◌, ◌++◌, ◌↔◌, ◌≤ℤ◌, pos, IsTrue, length};
ghost use Rattle.std.specs.Int.{IsInRange};
ghost use Rattle.std.specs.List.{AllByRecursion, flat_map};
ghost use Rattle.ais_report.specs.Bits.{bit};
ghost use Rattle.ais_report.specs.Fields.{Fits, IsReport, fields, field_bits, pattern_of, ais_bits};

use crate::bits::{Bits, append_bits};
use crate::report::AisReport;

/// The greatest number of a ship.
pub(crate) const MOST_MMSI: u32 = 999_999_999;

/// A field: how many bits it has, whether its value has a sign, and its value.
#[derive(Clone, Copy)]
pub(crate) struct Field {
    pub(crate) width: u8,
    pub(crate) signed: bool,
    pub(crate) value: i64,
}

fn unsigned(width: u8, value: u32) -> Field
    ensures { result ≡ Rattle.ais_report.specs.Fields.unsigned width value }
{
    Field {
        width,
        signed: false,
        value: i64::from(value),
    }
}

fn signed(width: u8, value: i32) -> Field
    ensures { result ≡ Rattle.ais_report.specs.Fields.signed width value }
{
    Field {
        width,
        signed: true,
        value: i64::from(value),
    }
}

fn flag(value: bool) -> Field
    ensures { result ≡ Rattle.ais_report.specs.Fields.flag value }
{
    unsigned(1, u32::from(value))
}

/// The fields in the order of their bits (ITU-R M.1371, table of messages 1 to 3). The rate of turn is told as not available.
fn fields(report: &AisReport) -> [Field; 16]
    ensures { result ≡ fields report.now }
{
    [
        unsigned(6, u32::from(report.kind)),
        unsigned(2, u32::from(report.repeat)),
        unsigned(30, report.mmsi),
        unsigned(4, u32::from(report.status)),
        signed(8, -128),
        unsigned(10, u32::from(report.sog)),
        flag(report.accuracy),
        signed(28, report.longitude),
        signed(27, report.latitude),
        unsigned(12, u32::from(report.cog)),
        unsigned(9, u32::from(report.heading)),
        unsigned(6, u32::from(report.second)),
        unsigned(2, u32::from(report.manoeuvre)),
        unsigned(3, 0),
        flag(report.raim),
        unsigned(19, report.radio),
    ]
}

/// Whether the report is valid.
pub(crate) fn is_valid(report: &AisReport) -> bool
    ensures { IsTrue result ↔ IsReport report.now }
{
    let known = 1 <= report.kind && report.kind <= 3 && report.mmsi <= MOST_MMSI;
    known && all_fit(&fields(report))
}

fn power_of_two(exponent: u8) -> i64
    requires { exponent ≤ 31 }
    ensures power { result ≡ pos (2 ^ exponent) }
    ensures least { pos 1 ≤ℤ result }
    ensures most { result ≤ℤ pos 2147483648 }
{
    i64::from(2u32.pow(u32::from(exponent)))
}

/// Whether each value fits its bits.
fn all_fit(fields: &[Field]) -> bool
    requires { AllByRecursion (λ f. IsInRange 1 31 f.width) fields.now }
    ensures { IsTrue result ↔ AllByRecursion Fits fields.now }
{
    for field in fields {
        if !fits(field) {
            return false;
        }
    }
    true
}

fn fits(field: &Field) -> bool
    requires { IsInRange 1 31 field.now.width }
    ensures { IsTrue result ↔ Fits field.now }
{
    if field.signed {
        let half = power_of_two(field.width - 1);
        -half <= field.value && field.value <= half - 1
    } else {
        0 <= field.value && field.value <= power_of_two(field.width) - 1
    }
}

/// The bits of a valid report.
#[tactic(auto, unfolding(crate::specs::Fields::ais_bits))]
pub(crate) fn report_bits(report: &AisReport) -> Bits
    requires { IsReport report.now }
    ensures { result.items ≡ ais_bits report.now }
{
    let mut bits = Bits::new();
    append_fields(&fields(report), &mut bits);
    bits
}

fn append_fields(fields: &[Field], out: &mut Bits)
    requires widths { AllByRecursion (λ f. IsInRange 1 31 f.width) fields.now }
    requires fit { AllByRecursion Fits fields.now }
    requires room { length out.old.items + length (flat_map field_bits fields.now) ≤ 168 }
    ensures { out.new.items ≡ out.old.items ++ flat_map field_bits fields.now }
{
    for field in fields {
        append_field(field, out);
    }
}

fn append_field(field: &Field, out: &mut Bits)
    requires width { IsInRange 1 31 field.now.width }
    requires fits { Fits field.now }
    requires room { length out.old.items + field.now.width ≤ 168 }
    ensures { out.new.items ≡ out.old.items ++ field_bits field.now }
{
    append_bits(usize::from(field.width), pattern_of(field), out);
}

/// The value as so many bits: a negative one as two's complement.
fn pattern_of(field: &Field) -> u32
    requires width { IsInRange 1 31 field.now.width }
    requires fits { Fits field.now }
    ensures { result ≡ pattern_of field.now.width field.now.value }
{
    if field.value < 0 {
        (field.value + power_of_two(field.width)) as u32
    } else {
        field.value as u32
    }
}
