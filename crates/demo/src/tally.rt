//! What is counted of what a gateway emits.
ghost use Rattle.std.specs.Prelude.{◌≡◌, ◌+◌, ◌<◌, ◌≤◌, ◌^◌, [], drop, take};
ghost use Rattle.std.specs.List.{fold};
ghost use Rattle.gate_events.specs.Emit.{CanWrite};
ghost use Rattle.gate_outbox.specs.Output.{emit_of, emits_of, most_emits};
ghost use Rattle.history.specs.Emits.{at};
ghost use Rattle.demo.specs.Tally.{and_all, and_one, counted, folded, tally_of, total};

use arrayvec::ArrayVec;
use capture_text::{LONGEST_LINE, write_emit};
use gate_core::Outbox;
use gate_events::Emit;

type Line = ArrayVec<u8, LONGEST_LINE>;

/// What a byte is added to is multiplied by this before.
const FACTOR: u128 = 31;

/// What is folded is counted modulo this.
const END: u128 = 1 << 64;

/// How many emits there were of each kind, and what all bytes of their lines were folded into.
#[derive(Clone, Copy)]
pub(crate) struct Tally {
    pub(crate) frames: u64,
    pub(crate) datagrams: u64,
    pub(crate) reports: u64,
    pub(crate) fold: u64,
}

impl Tally {
    /// Of no emits.
    pub(crate) fn new() -> Tally
        ensures { result ≡ tally_of [] }
    {
        Tally {
            frames: 0,
            datagrams: 0,
            reports: 0,
            fold: 0,
        }
    }

    /// Counts all that a call of the gateway left, at this moment.
    pub(crate) fn add_all(&mut self, emits: &Outbox, moment: u64)
        requires { total self.old < 2 ^ 63 }
        ensures tally { self.new ≡ and_all self.old (at moment (emits_of emits.now.emits)) }
        ensures few { total self.new ≤ total self.old + most_emits }
    {
        let mut line = Line::new();
        for place in 0..emits.len() {
            self.add_at(emits, place, moment, &mut line);
        }
    }

    /// Counts the emit at a place: nothing beyond the list.
    fn add_at(&mut self, emits: &Outbox, place: usize, moment: u64, line: &mut Line)
        requires { total self.old + 1 < 2 ^ 64 }
        ensures { self.new ≡ and_all self.old (at moment (take 1 (drop place (emits_of emits.now.emits)))) }
    {
        match emits.item(place) {
            Some(emit) => self.add(&emit, moment, line),
            None => {}
        }
    }

    /// Counts an emit, whose line is written into a room for it.
    fn add(&mut self, emit: &Emit<'_>, moment: u64, line: &mut Line)
        requires room { total self.old + 1 < 2 ^ 64 }
        requires can { CanWrite emit.now }
        ensures { self.new ≡ and_one self.old (record { moment = moment; emit = emit_of emit.now }) }
    {
        line.clear();
        write_emit(emit, moment, line);
        self.fold = folded_all(self.fold, line.as_slice());
        self.fold = folded(self.fold, b'\n');
        self.count(emit);
    }

    fn count(&mut self, emit: &Emit<'_>)
        requires { total self.old + 1 < 2 ^ 64 }
        ensures { self.new ≡ counted self.old (emit_of emit.now) self.old.fold }
    {
        match emit {
            Emit::Can(_) => self.frames += 1,
            Emit::Net(_, _) => self.datagrams += 1,
            Emit::Report(_) => self.reports += 1,
        }
    }
}

fn folded_all(number: u64, bytes: &[u8]) -> u64
    ensures { result ≡ fold folded number bytes.now }
{
    bytes
        .iter()
        .fold(number, |number, byte| folded(number, *byte))
}

#[tactic(auto, unfolding(crate::specs::Tally::folded))]
fn folded(number: u64, byte: u8) -> u64
    ensures { result ≡ folded number byte }
{
    ((u128::from(number) * FACTOR + u128::from(byte)) % END) as u64
}
