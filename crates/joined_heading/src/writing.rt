//! The datagram of a heading: `$HCHDG,90.0,1.0,W,2.0,E*6A`, `$HCHDM,89.0,M*18` and `$HCHDT,91.0,T*11`.
//!
//! HDM and HDT: 1 the heading in degrees, 2 `M` or `T`.
ghost use Rattle.std.specs.Prelude.{◌≡◌, ◌+◌, ◌<◌, ◌≤◌, ◌++◌, [], IsTrue, length, unsigned_abs};
ghost use Rattle.std.specs.List.{AllByRecursion, list_all};
ghost use Rattle.arrayvec.specs.ArrayVec.{array_vec_len};
ghost use Rattle.sentence_text.specs.Byte.{is_address_byte, is_capital, is_field_byte};
ghost use Rattle.sentence_fields.specs.Field.{IsPrintable, body_width, sentence_by};
ghost use Rattle.counted_lines.specs.CountedLines.{lines_datagram};
ghost use Rattle.joined_heading.specs.Sentences.{IsHeading, heading_field, heading_texts, north, tenths};

use crate::magnetic::MagneticHeading;
use counted_lines::{append_line, append_where};
use datagram450::begin;
use sentence_fields::Field;
use sentence_fields::Field::{Angle, Decimal, Letter, Magnitude, Side};
use sentence_fields::written_unit::{DEGREES, WrittenUnit};
use sentence_text::Sfi;
use settings::HeadingConfig;
use tag_block::Packet;
use unit_fraction::{Fraction, scale};

/// Tenths of a degree, below 3600.
const TENTHS: WrittenUnit = WrittenUnit {
    num: 1,
    den: 1,
    places: 1,
    largest: 3_599,
    digits: 4,
};

/// Writes the datagram of a heading, with a true one where that is computed. So many lines were said before. Answers how many it has.
pub(crate) fn write_headings(
    source: Sfi,
    before: u16,
    config: &HeadingConfig,
    computed: bool,
    said: &MagneticHeading,
    packet: &mut Packet,
) -> u16
    requires empty { packet.old.items ≡ [] }
    requires talker { IsTrue (list_all is_capital config.now.variation.talker) }
    requires count { before < 1000 }
    requires said { IsHeading said.now }
    ensures written { packet.new.items ≡ lines_datagram source before (heading_texts config.now.variation.talker config.now.hdm computed said.now) }
    ensures count { result ≡ length (heading_texts config.now.variation.talker config.now.hdm computed said.now) }
{
    let talker = config.variation.talker;
    begin(packet);
    let hdg = [
        Angle(said.heading),
        Magnitude(said.deviation, DEGREES),
        Side(said.deviation, DEGREES, b'E', b'W'),
        Magnitude(said.variation, DEGREES),
        Side(said.variation, DEGREES, b'E', b'W'),
    ];
    append_line(source, before, talker, *b"HDG", &hdg, packet);
    let hdm = north(said.magnetic(), b'M');
    let magnetic = append_where(
        config.hdm,
        source,
        before + 1,
        talker,
        *b"HDM",
        &hdm,
        packet,
    );
    let hdt = north(said.true_north(), b'T');
    let behind = before + 1 + magnetic;
    1 + magnetic + append_where(computed, source, behind, talker, *b"HDT", &hdt, packet)
}

/// A heading and the letter of its north.
fn north(raw: Option<i64>, letter: u8) -> [Field; 2]
    requires { IsTrue (is_field_byte letter) }
    ensures fields { result ≡ north raw letter }
    ensures printable { AllByRecursion IsPrintable result }
    ensures short { body_width result ≤ 71 }
{
    [heading_field(raw), Letter(letter)]
}

/// A heading, rounded once to tenths of a degree, and within the circle.
fn heading_field(raw: Option<i64>) -> Field
    ensures field { result ≡ heading_field raw }
    ensures printable { IsPrintable result }
{
    match raw {
        None => Decimal(None, TENTHS),
        Some(raw) => Decimal(Some(tenths(raw)), TENTHS),
    }
}

#[tactic(auto, using(crate::proofs::Tenths::tenths_small, crate::proofs::Tenths::tenths_positive))]
fn tenths(raw: i64) -> i64
    ensures value { result ≡ tenths raw }
    ensures small { unsigned_abs result ≤ 3599 }
{
    within_circle(raw) as i64
}

/// The same, before it is taken for what it is: small.
fn within_circle(raw: i64) -> i128
    ensures { result ≡ tenths raw }
{
    let fraction = Fraction {
        num: DEGREES.num,
        den: DEGREES.den,
    };
    scale(fraction, raw).rem_euclid(3_600)
}
