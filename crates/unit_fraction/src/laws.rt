//! What is promised of a value that is written in another unit and read back.
ghost use Rattle.unit_fraction.specs.Laws.{IsStable, IsStableDecimal, WrittenIsRead};

/// A whole number that is converted by a fraction of at least one, and back by its inverse, is the same again.
///
/// So a unit that is finer than the raw value loses nothing of it, and what a coarser unit prints is printed again
/// after it was read.
pub fn there_and_back()
    ensures whole { IsStable }
    ensures decimal { IsStableDecimal }
{}

/// What `write_decimal` writes in at most twelve digits, `read_decimal` reads: the same digits and places, and the
/// sign that was shown.
pub fn written_is_read()
    ensures { WrittenIsRead }
{}
