//! The line that sums up a run.
ghost use Rattle.std.specs.Prelude.{◌≡◌, ◌+◌, ◌≤◌, ◌++◌, [], IfOk, length};
ghost use Rattle.std.specs.Fmt.{decimal};
ghost use Rattle.arrayvec.specs.ArrayVec.{array_vec_len};
ghost use Rattle.demo.specs.Demo.{demo_text, part, summary_text};

use crate::running::run;
use crate::setup::demo_config;
use crate::tally::Tally;
use arrayvec::ArrayVec;
use gate_core::Gateway;
use std::alloc::{AllocError, Global};
use unit_fraction::write_decimal;

/// The line with its line end.
pub type Summary = ArrayVec<u8, 192>;

/// Runs a gateway over so many events, at most 1,000,000, of the input that a seed gives, and sums up what it emits:
/// `events E can C net N reports R fast F fold X` and LF.
///
/// These are the events; the frames, datagrams and reports that the gateway emits; the fast packets that are in the making at the end;
/// and the number that the bytes of the replay's lines are folded into, from 0 on: each byte is added to 31 times the number before it,
/// modulo 2^64.
///
/// An error is want of memory to open the gateway, before the first event.
pub fn demo_line(alloc: Global, seed: u64, count: u32) -> Result<Summary, AllocError>
    requires { count ≤ 1000000 }
    ensures { IfOk result (λ line. line.items ≡ demo_text seed count) }
{
    let mut gateway = Gateway::new(alloc, &demo_config())?;
    let tally = run(&mut gateway, seed, count);
    Ok(summary(count, &tally, gateway.held().fast))
}

fn summary(count: u32, tally: &Tally, fast: u16) -> Summary
    ensures { result.items ≡ summary_text count tally.now fast }
{
    let mut line = Summary::new();
    append_part(b"events ", u64::from(count), &mut line);
    append_part(b" can ", tally.frames, &mut line);
    append_part(b" net ", tally.datagrams, &mut line);
    append_part(b" reports ", tally.reports, &mut line);
    append_part(b" fast ", u64::from(fast), &mut line);
    append_part(b" fold ", tally.fold, &mut line);
    let _fits = line.try_push(b'\n');
    line
}

/// A number, and what stands before it.
#[tactic(auto, using(crate::proofs::Digits::few_digits))]
fn append_part(front: &[u8], number: u64, line: &mut Summary)
    requires front { length front.now ≤ 9 }
    requires room { array_vec_len line.old ≤ 160 }
    ensures text { line.new.items ≡ line.old.items ++ part front.now number }
    ensures len { array_vec_len line.new ≤ array_vec_len line.old + 29 }
{
    append(front, line);
    append(digits_of(number).as_slice(), line);
}

fn append(piece: &[u8], line: &mut Summary)
    requires { array_vec_len line.old + length piece.now ≤ 192 }
    ensures text { line.new.items ≡ line.old.items ++ piece.now }
    ensures len { array_vec_len line.new ≡ array_vec_len line.old + length piece.now }
{
    let _fits = line.try_extend_from_slice(piece);
}

#[tactic(auto, using(crate::proofs::Digits::plain_decimal, crate::proofs::Digits::few_digits))]
fn digits_of(number: u64) -> ArrayVec<u8, 82>
    ensures text { result.items ≡ decimal number }
{
    let mut digits = ArrayVec::new();
    let _fits = write_decimal(false, number, 0, &mut digits);
    digits
}
