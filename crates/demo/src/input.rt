//! The events of the made-up input.
ghost use Rattle.std.specs.Prelude.{◌≡◌, ◌+◌, ◌%◌, ◌<◌, ◌^◌, ℕ, slice_index};
ghost use Rattle.gate_core.specs.Steps.{IsEventValid, entry_of as entry_in};
ghost use Rattle.demo.specs.Input.{IsBefore, IsNext, entry_of, moved_on};
ghost use Rattle.demo.specs.Turns.{IsTurn};

use crate::frames::{claim, heading, position};
use crate::numbers::Numbers;
use crate::turns::{Turn, next_turn};
use gate_events::Event;

/// How long the events are apart, in microseconds.
const STEP: u64 = 100;

/// How many frames a position has.
const FRAMES: u8 = 7;

/// Which frame of its position each device sends next.
type Places = [u8; 251];

/// What gives the events, one by one.
#[derive(Drop)]
pub(crate) struct Input {
    number: u32,
    numbers: Numbers,
    places: Places,
}

impl Input {
    /// Before the first event of this seed.
    pub(crate) fn new(seed: u64) -> Input
        ensures { IsBefore seed 0 result }
    {
        Input {
            number: 0,
            numbers: Numbers::new(seed),
            places: [0; 251],
        }
    }

    /// The next event.
    pub(crate) fn next(&mut self) -> Event<'static>
        requires { self.old.number + 1 < 2 ^ 32 }
        ensures next { IsNext self.old (entry_in result) self.new }
        ensures number { self.new.number ≡ self.old.number + 1 }
        ensures valid { IsEventValid result }
    {
        let moment = STEP * u64::from(self.number);
        let turn = next_turn(self.number, &mut self.numbers);
        self.number += 1;
        let event = event_of(moment, turn, &self.places);
        move_on(turn, &mut self.places);
        event
    }
}

/// What comes of a turn.
fn event_of(moment: u64, turn: Turn, places: &Places) -> Event<'static>
    requires { IsTurn turn }
    ensures event { entry_in result ≡ entry_of moment (λ a. slice_index places.now a % 7) turn }
    ensures valid { IsEventValid result }
{
    let frame = match turn {
        Turn::Claim(address) => claim(address),
        Turn::Heading(source, said) => heading(source, said),
        Turn::Position(source) => position(source, places[usize::from(source)] % FRAMES),
        Turn::Tick => return Event::Tick { moment },
    };
    Event::Frame { moment, frame }
}

/// A device that has sent a frame of its position sends the one behind it next.
fn move_on(turn: Turn, places: &mut Places)
    requires { IsTurn turn }
    ensures { (a : ℕ) → a < 251 → slice_index places.new a ≡ moved_on turn a (slice_index places.old a) }
{
    if let Turn::Position(source) = turn {
        let place = places[usize::from(source)] % FRAMES;
        places[usize::from(source)] = (place + 1) % FRAMES;
    }
}
