ghost use Rattle.std.specs.Prelude.{◌≡◌, ◌+◌, ◌≤◌, ◌<◌, drop, take, length, IfOk, MatchResult, None, Ok, Some, slice_index, bit_xor};
ghost use Rattle.std.specs.List.{fold, prefix_len};
ghost use Rattle.sentence_text.specs.Byte as class;
ghost use Rattle.sentence_text.specs.Sentence.{SentenceParts, IsSentence, xor_of};
ghost use Rattle.sentence_text.specs.Reading as spec;

use crate::byte::{byte_at, is_address_byte, is_body_byte};
use crate::fault::{SentenceFault, SentenceRule};
use crate::sentence::Sentence;
use crate::sum::sum_fault;

/// The longest line that is read as a sentence.
const LONGEST: usize = 120;

/// The most characters of an address.
const LONGEST_ADDRESS: usize = 12;

/// How many address bytes come first.
fn address_run(bytes: &[u8]) -> usize
    ensures run { result ≡ prefix_len class.is_address_byte bytes.now }
    ensures within { result ≤ length bytes.now }
{
    bytes
        .iter()
        .take_while(|byte| is_address_byte(**byte))
        .count()
}

/// How many bytes of fields come first, and their exclusive or.
#[tactic(auto, using(crate::proofs::Run::run_starts, crate::proofs::Run::run_goes_on, crate::proofs::Run::run_stops, crate::proofs::Run::run_ends))]
fn body_run(bytes: &[u8]) -> (usize, u8)
    ensures run { result.0 ≡ prefix_len class.is_body_byte bytes.now }
    ensures within { result.0 ≤ length bytes.now }
    ensures sum { result.1 ≡ xor_of (take result.0 bytes.now) }
{
    let mut sum = 0;
    for (count, byte) in bytes.iter().enumerate() {
        if !is_body_byte(*byte) {
            return (count, sum);
        }
        sum ^= *byte;
    }
    (bytes.len(), sum)
}

fn ends_address(rest: &[u8]) -> bool
    ensures { result ≡ spec.ends_address rest.now }
{
    matches!(rest, [] | [b',', ..] | [b'*', ..])
}

/// Long, Start and Address; else the length of the address.
#[tactic(auto, unfolding(crate::specs::Reading::front_fault))]
fn check_front(line: &[u8]) -> Result<usize, SentenceFault>
    ensures fault { spec.fault_in result ≡ spec.front_fault line.now }
    ensures length { IfOk result (λ n. n ≡ spec.address_len line.now) }
    ensures bounds { IfOk result (λ n. (3 ≤ n) × (n < length line.now)) }
{
    if line.len() > LONGEST {
        return Err(SentenceRule::Long.at(LONGEST));
    }
    let rest = match line {
        [b'$' | b'!', rest @ ..] => rest,
        _ => return Err(SentenceRule::Start.at(0)),
    };
    let address = address_run(rest);
    if address < 3 || address > LONGEST_ADDRESS || !ends_address(&rest[address..]) {
        let place = 1 + address.min(LONGEST_ADDRESS);
        return Err(SentenceRule::Address.at(place));
    }
    Ok(address)
}

/// NoSum and Byte: what follows the content begins with `*`.
fn check_star(tail: &[u8], place: usize) -> Result<(), SentenceFault>
    ensures { spec.fault_in result ≡ spec.star_fault tail.now place }
{
    match tail {
        [b'*', ..] => Ok(()),
        [] | [b'\r' | b'\n', ..] => Err(SentenceRule::NoSum.at(place)),
        _ => Err(SentenceRule::Byte.at(place)),
    }
}

/// Sum: two digits, which give the sum.
fn check_sum(sum: u8, tail: &[u8], place: usize) -> Result<(), SentenceFault>
    requires { place + 5 < usize.MAX }
    ensures { spec.fault_in result ≡ spec.sum_fault_at sum tail.now place }
{
    match sum_fault(sum, byte_at(tail, 1), byte_at(tail, 2)) {
        Some(fault) => Err(SentenceRule::Sum.at(place + fault.digit_place())),
        None => Ok(()),
    }
}

/// End: CR and LF, and nothing more.
#[tactic(auto, unfolding(crate::specs::Reading::end_fault))]
fn check_end(tail: &[u8], place: usize) -> Result<(), SentenceFault>
    requires { place + 5 < usize.MAX }
    ensures { spec.fault_in result ≡ spec.end_fault tail.now place }
{
    if byte_at(tail, 3) != b'\r' {
        return Err(SentenceRule::End.at(place + 3));
    }
    if byte_at(tail, 4) != b'\n' {
        return Err(SentenceRule::End.at(place + 4));
    }
    if tail.len() > 5 {
        return Err(SentenceRule::End.at(place + 5));
    }
    Ok(())
}

/// NoSum, Byte, Sum and End, in this order.
fn check_tail(sum: u8, tail: &[u8], place: usize) -> Result<(), SentenceFault>
    requires { place + 5 < usize.MAX }
    ensures { spec.fault_in result ≡ spec.tail_fault sum tail.now place }
{
    check_star(tail, place)?;
    check_sum(sum, tail, place)?;
    check_end(tail, place)
}

#[tactic(auto, using(crate::proofs::Run::address_within))]
fn parse<'a>(line: &'a [u8]) -> Result<Sentence<'a>, SentenceFault>
    ensures { spec.seen result ≡ spec.read line.now }
{
    let address = check_front(line)?;
    let (_, rest) = line.split_at(1);
    let (length, sum) = body_run(rest);
    let (content, tail) = rest.split_at(length);
    let place = 1 + length;
    check_tail(sum, tail, place)?;
    let (address, body) = content.split_at(address);
    let (talker, formatter) = address.split_at(2);
    Ok(Sentence {
        start: line[0],
        talker: [talker[0], talker[1]],
        formatter,
        body,
    })
}

/// The sentence that the whole line is, CR and LF included.
#[tactic(auto, using(crate::proofs::Found::is_found))]
pub fn read<'a>(line: &'a [u8]) -> Result<Sentence<'a>, SentenceFault>
    // What is read is spelled so.
    ensures found { IfOk result (λ s. IsSentence (spec.parts s) line.now) }
    // What is spelled so is read.
    ensures only { (p : SentenceParts) → IsSentence p line.now → spec.seen result ≡ Ok p }
    // Which fault it is.
    ensures exact { spec.seen result ≡ spec.read line.now }
{
    parse(line)
}
