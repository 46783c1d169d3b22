//! A report as the text of a sentence, and back.
ghost use Rattle.std.specs.Prelude.{◌≡◌, ◌≢◌, ◌+◌, ◌*◌, ◌<◌, ◌≤◌, ◌^◌, ◌++◌, ◌↔◌, IsSome, IfSome, Some, None, length, slice_index};
ghost use Rattle.std.specs.Int.{IsInRange};
ghost use Rattle.ais_report.specs.Armour.{armour_of, character, characters};
ghost use Rattle.ais_report.specs.Fields.{IsReport};
ghost use Rattle.ais_report.specs.Bits.{bits_of};
ghost use Rattle.ais_report.specs.Read.{text_bits, report_from, bits_of_character, number_at, signed_at};
ghost use Rattle.ais_report.specs.declared.report.AisReport.{AisReport};

use crate::bits::{Bits, append_bits, number_of};
use crate::field::{is_valid, report_bits};
use crate::report::AisReport;
use arrayvec::ArrayVec;

/// How many characters a report has.
const CHARACTERS: usize = 28;

type Text = ArrayVec<u8, CHARACTERS>;

/// The bits of a valid report (ITU-R M.1371) as characters, six in each (IEC 61162-1, the payload of `VDM`).
#[tactic(auto, unfolding(crate::specs::Armour::armour_of), using(crate::proofs::ReadLemmas::length_report))]
pub fn armour(report: &AisReport) -> [u8; 28]
    requires valid { IsReport report.now }
    ensures { result ≡ armour_of report.now }
{
    let bits = report_bits(report);
    let text = characters(&bits);
    text.as_slice().try_into().unwrap()
}

fn characters(bits: &[bool]) -> Text
    requires { length bits.now ≡ 168 }
    ensures text { result.items ≡ characters bits.now }
    ensures length { length result.items ≡ 28 }
{
    let mut text = Text::new();
    for place in 0..CHARACTERS {
        text.push(character(number_of(&bits[6 * place..6 * place + 6]) as u8));
    }
    text
}

/// The character of a number below 64.
fn character(number: u8) -> u8
    requires { number < 64 }
    ensures { result ≡ character number }
{
    if number < 40 {
        number + 48
    } else {
        number + 56
    }
}

/// The valid report that `armour` writes in this text. None exactly where it writes none so: where the text isn't 28 of its characters,
/// its values aren't those of a valid report, the rate of turn is told, or a spare bit is set.
pub fn read_armour(text: &[u8]) -> Option<AisReport>
    ensures found { IfSome result (λ r. IsReport r × (armour_of r ≡ text.now)) }
    ensures only { (r : AisReport) → IsReport r → armour_of r ≡ text.now → result ≡ Some r }
{
    if text.len() != CHARACTERS {
        return None;
    }
    let report = report_from(&text_bits(text));
    if !is_valid(&report) {
        return None;
    }
    if armour(&report).as_slice() == text {
        Some(report)
    } else {
        None
    }
}

/// The bits of each character.
fn text_bits(text: &[u8]) -> Bits
    requires { length text.now ≡ 28 }
    ensures { result.items ≡ text_bits text.now }
{
    let mut bits = Bits::new();
    for &character in text {
        append_character(character, &mut bits);
    }
    bits
}

/// Appends the bits of a character; another character than those of a report has bits that aren't written so.
fn append_character(character: u8, out: &mut Bits)
    requires { length out.old.items + 6 ≤ 168 }
    ensures { out.new.items ≡ out.old.items ++ bits_of_character character }
{
    let number = if character < 88 {
        character.saturating_sub(48)
    } else {
        character - 56
    };
    append_bits(6, u32::from(number), out);
}

/// The report whose fields stand in these bits.
#[tactic(auto, unfolding(crate::specs::Read::report_from))]
fn report_from(bits: &[bool]) -> AisReport
    requires { length bits.now ≡ 168 }
    ensures { result ≡ report_from bits.now }
{
    AisReport {
        kind: number_at(bits, 0, 6) as u8,
        repeat: number_at(bits, 6, 2) as u8,
        mmsi: number_at(bits, 8, 30),
        status: number_at(bits, 38, 4) as u8,
        sog: number_at(bits, 50, 10) as u16,
        accuracy: number_at(bits, 60, 1) == 1,
        longitude: signed_at(bits, 61, 28),
        latitude: signed_at(bits, 89, 27),
        cog: number_at(bits, 116, 12) as u16,
        heading: number_at(bits, 128, 9) as u16,
        second: number_at(bits, 137, 6) as u8,
        manoeuvre: number_at(bits, 143, 2) as u8,
        raim: number_at(bits, 148, 1) == 1,
        radio: number_at(bits, 149, 19),
    }
}

/// The number of so many bits at a place.
fn number_at(bits: &[bool], place: usize, width: usize) -> u32
    requires width { width ≤ 31 }
    requires within { place + width ≤ length bits.now }
    ensures number { result ≡ number_at bits.now place width }
    ensures below { result < 2 ^ width }
{
    number_of(&bits[place..place + width])
}

/// The same with a sign, as two's complement.
fn signed_at(bits: &[bool], place: usize, width: usize) -> i32
    requires width { IsInRange 1 30 width }
    requires within { place + width ≤ length bits.now }
    ensures { result ≡ signed_at bits.now place width }
{
    let number = number_at(bits, place, width);
    if number < 2u32.pow(width as u32 - 1) {
        number as i32
    } else {
        -((2u32.pow(width as u32) - number) as i32)
    }
}
