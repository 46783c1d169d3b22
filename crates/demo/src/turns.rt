//! What happens on the made-up bus, turn by turn.
ghost use Rattle.std.specs.Prelude.{◌≡◌, ◌<◌};
ghost use Rattle.demo.specs.Turns.{IsTurn, drawn, drawn_kind, turn_of};

use crate::numbers::Numbers;

/// How many devices there are, at the addresses from 0 on.
pub(crate) const DEVICES: u16 = 251;

/// How many kinds of turns are drawn among.
const KINDS: u16 = 8;

/// How many headings are drawn among, in 1/10,000 rad.
const HEADINGS: u16 = 62_832;

/// What happens at a turn.
#[derive(Clone, Copy)]
pub enum Turn {
    /// The device at an address claims it.
    Claim(u8),
    /// A device says a true heading, in 1/10,000 rad.
    Heading(u8, u16),
    /// A device sends the next frame of its position.
    Position(u8),
    /// Time passes.
    Tick,
}

/// What happens at this turn: first each device claims its address, and then what happens is drawn.
pub(crate) fn next_turn(number: u32, numbers: &mut Numbers) -> Turn
    ensures turn { result ≡ (turn_of number numbers.old).turn }
    ensures numbers { numbers.new ≡ (turn_of number numbers.old).after }
    ensures valid { IsTurn result }
{
    if number < u32::from(DEVICES) {
        Turn::Claim(number as u8)
    } else {
        drawn(numbers)
    }
}

/// A device is drawn, and what it does.
fn drawn(numbers: &mut Numbers) -> Turn
    ensures turn { result ≡ (drawn numbers.old).turn }
    ensures numbers { numbers.new ≡ (drawn numbers.old).after }
    ensures valid { IsTurn result }
{
    let source = numbers.below(DEVICES) as u8;
    let kind = numbers.below(KINDS);
    drawn_kind(source, kind, numbers)
}

fn drawn_kind(source: u8, kind: u16, numbers: &mut Numbers) -> Turn
    requires { source < 251 }
    ensures turn { result ≡ (drawn_kind source kind numbers.old).turn }
    ensures numbers { numbers.new ≡ (drawn_kind source kind numbers.old).after }
    ensures valid { IsTurn result }
{
    if kind < 4 {
        Turn::Heading(source, numbers.below(HEADINGS))
    } else if kind < 7 {
        Turn::Position(source)
    } else {
        Turn::Tick
    }
}
