//! The sentences in which the quantities are said.
ghost use Rattle.std.specs.Prelude.{◌≡◌};
ghost use Rattle.quantities.specs.Layout.{layout_of, seen_layout, telling_of};

use crate::about::{QUANTITIES, Quantity};
use crate::column::Column;
use crate::column::Column::{Celsius, Course, Decimal, Empty, Letter, Status, Word};
use crate::unit::{AIR_BARS, AMPERES, COMPONENT_KNOTS, OIL_BARS, PERCENT, REVOLUTIONS, VOLTS};
use crate::value::VALUES;
use sentence_fields::written_unit::{DEGREES, KNOTS};

/// The sentence of a quantity.
pub(crate) struct Layout {
    pub formatter: [u8; 3],
    /// Its fields.
    pub columns: &'static [Column],
}

/// A sentence by its formatter and its columns.
macro_rules! layout {
    ($formatter:literal, [$($column:expr),* $(,)?]) => {
        Layout {
            formatter: *$formatter,
            columns: &[$($column),*],
        }
    };
}

/// The revolutions of an engine by its number, which counts from the centre line (IEC 61162-1, RPM).
macro_rules! revolutions {
    ($number:literal) => {
        layout!(
            b"RPM",
            [
                Letter(b'E'),
                Letter($number),
                Decimal(0, REVOLUTIONS),
                Empty,
                Status(0),
            ]
        )
    };
}

/// The state of an engine by the names of its transducers: its temperature and the oil's pressure.
macro_rules! engine {
    ($engine:literal, $oil:literal) => {
        layout!(
            b"XDR",
            [
                Letter(b'C'),
                Celsius(0),
                Letter(b'C'),
                Word($engine),
                Letter(b'P'),
                Decimal(1, OIL_BARS),
                Letter(b'B'),
                Word($oil),
            ]
        )
    };
}

/// A battery by the name of its transducers.
macro_rules! battery {
    ($name:literal) => {
        layout!(
            b"XDR",
            [
                Letter(b'U'),
                Decimal(0, VOLTS),
                Letter(b'V'),
                Word($name),
                Letter(b'I'),
                Decimal(1, AMPERES),
                Letter(b'A'),
                Word($name),
            ]
        )
    };
}

/// The level of a tank by the name of its transducer.
macro_rules! level {
    ($name:literal) => {
        layout!(
            b"XDR",
            [
                Letter(b'V'),
                Decimal(0, PERCENT),
                Letter(b'P'),
                Word($name),
            ]
        )
    };
}

/// The sentence of each quantity, in the order of the quantities. That of the first engine is for a boat with one.
static LAYOUTS: [Layout; QUANTITIES] = [
    layout!(
        b"XDR",
        [
            Letter(b'A'),
            Decimal(0, DEGREES),
            Letter(b'D'),
            Word(b"PITCH"),
            Letter(b'A'),
            Decimal(1, DEGREES),
            Letter(b'D'),
            Word(b"ROLL"),
        ]
    ),
    layout!(
        b"VDR",
        [
            Course(0),
            Letter(b'T'),
            Course(1),
            Letter(b'M'),
            Decimal(2, KNOTS),
            Letter(b'N'),
        ]
    ),
    layout!(
        b"VBW",
        [
            Decimal(0, COMPONENT_KNOTS),
            Decimal(1, COMPONENT_KNOTS),
            Status(0),
            Decimal(2, COMPONENT_KNOTS),
            Decimal(3, COMPONENT_KNOTS),
            Status(2),
            Decimal(4, COMPONENT_KNOTS),
            Status(4),
            Decimal(5, COMPONENT_KNOTS),
            Status(5),
        ]
    ),
    layout!(
        b"XDR",
        [
            Letter(b'P'),
            Decimal(0, AIR_BARS),
            Letter(b'B'),
            Word(b"BAROMETER"),
        ]
    ),
    layout!(
        b"XDR",
        [
            Letter(b'H'),
            Decimal(0, PERCENT),
            Letter(b'P'),
            Word(b"HUMIDITY"),
        ]
    ),
    layout!(
        b"XDR",
        [Letter(b'C'), Celsius(0), Letter(b'C'), Word(b"AIR")]
    ),
    layout!(b"MTW", [Celsius(0), Letter(b'C')]),
    revolutions!(b'0'),
    revolutions!(b'1'),
    engine!(b"ENGINE#0", b"ENGOIL#0"),
    engine!(b"ENGINE#1", b"ENGOIL#1"),
    battery!(b"BATTERY#0"),
    battery!(b"BATTERY#1"),
    level!(b"FUEL#0"),
    level!(b"FUEL#1"),
    level!(b"FRESHWATER#0"),
];

/// The sentence of the first engine where there are two: it is the port one, and has an even number.
static PORT_ENGINE: Layout = revolutions!(b'2');

impl Quantity {
    /// Its sentence, on a boat with two engines or not.
    pub(crate) fn layout(self, twin_engines: bool) -> &'static Layout
        ensures { seen_layout result.now ≡ layout_of twin_engines self }
    {
        match self {
            Quantity::EngineFirst if twin_engines => &PORT_ENGINE,
            _ => &LAYOUTS[self as usize],
        }
    }

    /// Of so many values, the first ones, one has to be there for a message to be usable.
    pub(crate) fn telling(self) -> usize
        ensures { result ≡ telling_of self }
    {
        match self {
            Quantity::Attitude | Quantity::SetDrift => 2,
            Quantity::SpeedComponents => VALUES,
            _ => 1,
        }
    }
}
