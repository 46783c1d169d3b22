//! Streams of plain sentences.
ghost use Rattle.std.specs.Prelude.{◌≡◌, ◌<◌};
ghost use Rattle.plain_out.specs.Streams.{quantity_stream, reading_stream, stream_number, streams_count};

use quantities::{QUANTITIES, Quantity};
use readings::{ROWS, Reading, Row, row};

/// What says one thing again and again, so that one datagram of it may stand for the next.
#[derive(Clone, Copy)]
pub enum Stream {
    Row(Row),
    Rmc,
    Quantity(Quantity),
    /// Course and speed over ground, from magnetic north.
    MagneticCourse,
    /// The wind over ground, from magnetic north.
    MagneticWind,
    /// Set and drift of the current, from magnetic north.
    MagneticDrift,
    /// A heading that is joined of two messages.
    JoinedHeading,
}

/// How many streams there are.
pub(crate) const STREAMS: usize = ROWS + 5 + QUANTITIES;

impl Stream {
    /// That of what a row says.
    pub fn of_reading(reading: &Reading) -> Stream
        ensures { result ≡ reading_stream reading.now }
    {
        match reading {
            Reading::CourseSpeed { magnetic: true, .. } => Stream::MagneticCourse,
            Reading::WindNorth { magnetic: true, .. } => Stream::MagneticWind,
            other => Stream::Row(row(other)),
        }
    }

    /// That of a further quantity, in a message that speaks of magnetic north or not.
    pub fn of_quantity(quantity: Quantity, magnetic: bool) -> Stream
        ensures { result ≡ quantity_stream quantity magnetic }
    {
        match quantity {
            Quantity::SetDrift if magnetic => Stream::MagneticDrift,
            other => Stream::Quantity(other),
        }
    }

    /// Its place among the streams, from 0.
    pub(crate) fn number(self) -> usize
        ensures { result ≡ stream_number self }
    {
        match self {
            Stream::Row(row) => row as usize,
            Stream::Rmc => ROWS,
            Stream::Quantity(quantity) => ROWS + 1 + quantity.number(),
            Stream::MagneticCourse => ROWS + 1 + QUANTITIES,
            Stream::MagneticWind => ROWS + 2 + QUANTITIES,
            Stream::MagneticDrift => ROWS + 3 + QUANTITIES,
            Stream::JoinedHeading => ROWS + 4 + QUANTITIES,
        }
    }
}
