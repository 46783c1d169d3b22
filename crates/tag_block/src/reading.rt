ghost use Rattle.std.specs.Prelude.{◌≡◌, ℕ, List, Ok, ◌++◌, ◌+◌, ◌-◌, ◌<◌, ◌≤◌, length, option_map, IfOk, bit_xor};
ghost use Rattle.std.specs.List.{fold};
ghost use Rattle.tag_block.specs.Tag.{Said, IsSaid, IsTag, BeginsNoBlock, Fronts, xor_of};
ghost use Rattle.tag_block.specs.Content.{bytes_between, seen_content};
ghost use Rattle.tag_block.specs.Reading as spec;

use crate::byte::{code_run, value_run};
use crate::fault::{TagFault, TagRule};
use crate::group_part::GroupPart;
use crate::number::{group, number};
use crate::tag::Tag;
use crate::values::{Content, Scan, Value, Values, keep};
use sentence_text::{Sfi, SumFault, byte_at, sum_fault};

/// One parameter, whose bytes the sum takes in.
#[tactic(auto, using(crate::proofs::Sum::parameter_sum), unfolding(crate::specs::Reading::parameter_at))]
fn parameter<'a>(total: usize, content: Content<'a>) -> Result<Content<'a>, TagFault>
    requires { length content.scan.rest.now ≤ total }
    ensures reads { seen_content result ≡ spec.parameter_at total (spec.scan content.entry.scan) }
    ensures shorter { IfOk result (λ c. length c.scan.rest.now < length content.entry.scan.rest.now) }
    ensures sum { IfOk result (λ c. c.sum ≡ fold bit_xor content.entry.sum (bytes_between content.entry.scan.rest.now c.scan.rest.now)) }
{
    let rest = content.scan.rest;
    let (code, sum) = code_run(rest, content.sum);
    if code == 0 {
        return Err(TagRule::Form.at(total - rest.len()));
    }
    if byte_at(rest, code) != b':' {
        return Err(TagRule::Form.at(total - rest.len() + code));
    }
    let (code, text) = (rest.split_at(code).0, rest.split_at(code + 1).1);
    let (length, sum) = value_run(text, sum ^ b':');
    let (value, rest) = text.split_at(length);
    let value = Value {
        place: total - text.len(),
        text: value,
    };
    let mut values = content.scan.values;
    keep(&mut values, code, value);
    let scan = Scan { values, rest };
    Ok(Content { scan, sum })
}

/// Parameters with commas between them, and the sum of all their bytes.
fn parameters<'a>(total: usize, scan: Scan<'a>) -> Result<Content<'a>, TagFault>
    requires { length scan.rest.now ≤ total }
    ensures reads { seen_content result ≡ spec.parameters_at (length scan.entry.rest.now + 1) total (spec.scan scan.entry) }
    ensures shorter { IfOk result (λ c. length c.scan.rest.now ≤ length scan.entry.rest.now) }
    ensures sum { IfOk result (λ c. c.sum ≡ xor_of (bytes_between scan.entry.rest.now c.scan.rest.now)) }
{
    let mut content = Content { scan, sum: 0 };
    loop {
        let next = match parameter(total, content) {
            Ok(next) => next,
            Err(fault) => return Err(fault),
        };
        if byte_at(next.scan.rest, 0) != b',' {
            return Ok(next);
        }
        content = Content {
            scan: Scan {
                values: next.scan.values,
                rest: next.scan.rest.split_at(1).1,
            },
            sum: next.sum ^ b',',
        };
    }
}

/// The rule that the digits of a sum break.
fn sum_rule(fault: SumFault) -> TagRule
    ensures { result ≡ spec.sum_rule fault }
{
    match fault {
        SumFault::First | SumFault::Second => TagRule::Form,
        SumFault::Differs => TagRule::Sum,
    }
}

/// `*`, the two digits of this sum, and `\`.
#[tactic(auto, unfolding(crate::specs::Reading::block_end_at))]
fn block_end<'a>(total: usize, sum: u8, scan: Scan<'a>) -> Result<Scan<'a>, TagFault>
    requires within { length scan.rest.now ≤ total }
    requires short { total + 3 < usize.MAX }
    ensures reads { spec.seen_scan result ≡ spec.block_end_at total sum (spec.scan scan.entry) }
    ensures shorter { IfOk result (λ s. length s.rest.now < length scan.entry.rest.now) }
{
    let rest = scan.rest;
    let place = total - rest.len();
    if byte_at(rest, 0) != b'*' {
        return Err(TagRule::Form.at(place));
    }
    if let Some(fault) = sum_fault(sum, byte_at(rest, 1), byte_at(rest, 2)) {
        return Err(sum_rule(fault).at(place + fault.digit_place()));
    }
    if byte_at(rest, 3) != b'\\' {
        return Err(TagRule::Form.at(place + 3));
    }
    Ok(Scan {
        values: scan.values,
        rest: rest.split_at(4).1,
    })
}

/// One block, behind its first `\`.
#[tactic(auto, unfolding(crate::specs::Reading::block_at))]
fn block<'a>(total: usize, scan: Scan<'a>) -> Result<Scan<'a>, TagFault>
    requires within { length scan.rest.now ≤ total }
    requires short { total + 3 < usize.MAX }
    ensures reads { spec.seen_scan result ≡ spec.block_at total (spec.scan scan.entry) }
    ensures shorter { IfOk result (λ s. length s.rest.now < length scan.entry.rest.now) }
{
    let content = parameters(total, scan)?;
    block_end(total, content.sum, content.scan)
}

/// Blocks while the next byte is `\`.
fn blocks<'a>(total: usize, scan: Scan<'a>) -> Result<Scan<'a>, TagFault>
    requires within { length scan.rest.now ≤ total }
    requires short { total + 3 < usize.MAX }
    ensures reads { spec.seen_scan result ≡ spec.blocks_at (length scan.entry.rest.now + 1) total (spec.scan scan.entry) }
    ensures shorter { IfOk result (λ s. length s.rest.now ≤ length scan.entry.rest.now) }
{
    let mut scan = scan;
    while byte_at(scan.rest, 0) == b'\\' {
        let behind = Scan {
            values: scan.values,
            rest: scan.rest.split_at(1).1,
        };
        scan = match block(total, behind) {
            Ok(next) => next,
            Err(fault) => return Err(fault),
        };
    }
    Ok(scan)
}

/// The group, or Form at its value.
fn group_of(value: Option<Value<'_>>) -> Result<Option<GroupPart>, TagFault>
    ensures { result ≡ spec.group_said (option_map spec.placed value.entry) }
{
    match value {
        None => Ok(None),
        Some(value) => match group(value.text) {
            Some(part) => Ok(Some(part)),
            None => Err(TagRule::Form.at(value.place)),
        },
    }
}

/// The count of the line, or Form at its value.
fn count_of(value: Option<Value<'_>>) -> Result<Option<u16>, TagFault>
    ensures { result ≡ spec.count_said (option_map spec.placed value.entry) }
{
    match value {
        None => Ok(None),
        Some(value) => match number(3, value.text) {
            Some(count) => Ok(Some(count)),
            None => Err(TagRule::Form.at(value.place)),
        },
    }
}

/// The source, or NoSource at its value or at the end of the blocks.
fn source_of(end: usize, value: Option<Value<'_>>) -> Result<Sfi, TagFault>
    ensures { result ≡ spec.source_said end (option_map spec.placed value.entry) }
{
    match value {
        None => Err(TagRule::NoSource.at(end)),
        Some(value) => match Sfi::of(value.text) {
            Some(source) => Ok(source),
            None => Err(TagRule::NoSource.at(value.place)),
        },
    }
}

/// What the values say, and where the blocks end.
#[tactic(auto, unfolding(crate::specs::Reading::settle))]
fn settle<'a>(total: usize, scan: Scan<'a>) -> Result<(Tag<'a>, usize), TagFault>
    requires { length scan.rest.now ≤ total }
    ensures { spec.seen result ≡ spec.settle total (spec.scan scan.entry) }
{
    let end = total - scan.rest.len();
    let group = group_of(scan.values.group)?;
    let count = count_of(scan.values.count)?;
    let source = source_of(end, scan.values.source)?;
    let destination = scan.values.destination.map(|value| value.text);
    Ok((
        Tag {
            source,
            destination,
            group,
            count,
        },
        end,
    ))
}

#[tactic(auto, unfolding(crate::specs::Reading::read))]
fn parse<'a>(line: &'a [u8]) -> Result<(Tag<'a>, usize), TagFault>
    ensures { spec.seen result ≡ spec.read line.now }
{
    if byte_at(line, 0) != b'\\' {
        return Err(TagRule::NoSource.at(0));
    }
    let values = Values {
        source: None,
        destination: None,
        group: None,
        count: None,
    };
    let scan = blocks(line.len(), Scan { values, rest: line })?;
    settle(line.len(), scan)
}

/// What the TAG blocks at the front of the line say, and how many bytes they have. Blocks are read while the next
/// byte is `\\`.
pub fn read<'a>(line: &'a [u8]) -> Result<(Tag<'a>, usize), TagFault>
    // What is read is spelled so, and no block follows.
    ensures found { IfOk result (λ t. Fronts line.now (spec.said t.0) t.1) }
    // What it says is in its ranges.
    ensures ranges { IfOk result (λ t. IsSaid (spec.said t.0)) }
    // What is spelled so is read, where no block follows.
    ensures only { (said : Said) (bytes rest : List ℕ) → IsTag said bytes → BeginsNoBlock rest → line.now ≡ bytes ++ rest
        → spec.seen result ≡ Ok (said, length bytes) }
    // Which fault it is.
    ensures exact { spec.seen result ≡ spec.read line.now }
{
    parse(line)
}
