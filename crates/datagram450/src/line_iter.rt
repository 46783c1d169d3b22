ghost use Rattle.std.specs.Prelude.{◌≡◌, ◌==◌, ◌+◌, ◌≤◌, ℕ, List, length, Ok, IfOk};
ghost use Rattle.std.specs.List.{AllByRecursion, position_or_len, common_prefix_len};
ghost use Rattle.tag_block.specs.Tag.{Said};
ghost use Rattle.sentence_text.specs.Sentence.{SentenceParts};
ghost use Rattle.datagram450.specs.Datagram.{Item, LineOf, item, line, read, DatagramOf, IsItem};

use crate::fault::DatagramFault;
use crate::header::HEADER;
use crate::item::{LineItem, only_line, read_line};
use report_rules::{LINE_FORM, TOO_MANY_LINES};
use std::marker::Model;

/// How many bytes a datagram may have, and so the first place that it may not have.
pub const LONGEST_DATAGRAM: u16 = 1472;

/// The most lines of a datagram.
const MOST_LINES: u8 = 64;

/// What the lines of a datagram give, one after the other.
#[derive(Drop)]
pub struct LineIter<'a> {
    /// Where the rest begins in the datagram.
    at: u16,
    /// How many lines may still come.
    left: u8,
    rest: &'a [u8],
}

impl<'a> Model for LineIter<'a> {
    ghost use Rattle.std.specs.Prelude.{◌+◌, ◌≤◌, List, length};
    ghost use Rattle.datagram450.specs.Datagram.{Item, items_from, longest_datagram};

    ghost Value = { List Item };

    ghost view = { λ s. items_from s.left s.at s.rest.now };

    ghost invariant = { λ s. s.at + length s.rest.now ≤ longest_datagram };
}

impl<'a> Iterator for LineIter<'a> {
    ghost use Rattle.datagram450.specs.Datagram.{item_view};
    ghost use Rattle.std.specs.Iterator.{item_count, YieldsFirstBy};

    type Item = LineItem<'a>;

    ghost next_gives = { YieldsFirstBy item_view (λ s. s) };

    ghost remaining = { item_count (λ s. s) };

    fn next(&mut self) -> Option<LineItem<'a>> {
        if self.rest.is_empty() {
            return None;
        }
        let (at, rest) = (self.at, self.rest);
        if self.left == MOST_LINES {
            if let Some(item) = only_line(at, rest) {
                self.rest = rest.split_at(rest.len()).1;
                return Some(item);
            }
        }
        let place = text_run(rest);
        if place == rest.len() {
            self.rest = rest.split_at(place).1;
            return Some(LineItem::Bad {
                rule: LINE_FORM,
                at,
            });
        }
        if self.left == 0 {
            self.rest = rest.split_at(rest.len()).1;
            return Some(LineItem::Bad {
                rule: TOO_MANY_LINES,
                at,
            });
        }
        let (line, behind) = rest.split_at(place + 1);
        self.at = at + line.len() as u16;
        self.left -= 1;
        self.rest = behind;
        Some(read_line(at, line))
    }
}

/// How many bytes come before the first LF.
pub fn text_run(bytes: &[u8]) -> usize
    ensures run { result ≡ position_or_len (λ c. c == 10) bytes.now }
    ensures within { result ≤ length bytes.now }
{
    bytes.iter().take_while(|byte| **byte != b'\n').count()
}

/// How many bytes are the wanted ones, from the first on.
#[tactic(auto, using(crate::proofs::CommonRun::starts, crate::proofs::CommonRun::goes_on, crate::proofs::CommonRun::wanted_ends, crate::proofs::CommonRun::bytes_end, crate::proofs::CommonRun::differs))]
fn common_run(wanted: &[u8], bytes: &[u8]) -> usize
    ensures run { result ≡ common_prefix_len (λ b c. b == c) wanted.now bytes.now }
    ensures within { result ≤ length bytes.now }
{
    let mut place = 0;
    while place < wanted.len() && place < bytes.len() && wanted[place] == bytes[place] {
        place += 1;
    }
    place
}

fn start<'a>(bytes: &'a [u8]) -> Result<LineIter<'a>, DatagramFault>
    ensures { result ≡ read bytes.now }
{
    let place = common_run(&HEADER, bytes);
    if place < HEADER.len() {
        return Err(DatagramFault::Header(place));
    }
    if bytes.len() > LONGEST_DATAGRAM as usize {
        return Err(DatagramFault::Long);
    }
    Ok(LineIter {
        at: 6,
        left: MOST_LINES,
        rest: bytes.split_at(6).1,
    })
}

/// The lines of a datagram, each as it is asked for. The items end where no byte is left, or at the 65th line.
pub fn lines<'a>(bytes: &'a [u8]) -> Result<LineIter<'a>, DatagramFault>
    // What is read is cut and gives so.
    ensures found { IfOk result (λ items. DatagramOf items bytes.now) }
    // Of each line the sentence is one, and what its blocks say is in its ranges; each place is in the datagram.
    ensures each { IfOk result (AllByRecursion IsItem) }
    // What is cut and gives so is read.
    ensures only { (items : List Item) → DatagramOf items bytes.now → result ≡ Ok items }
    // A line that gives a sentence is TAG blocks and a sentence.
    ensures line_found { (at : ℕ) (bytes text : List ℕ) (said : Said) (parts : SentenceParts)
        → item at bytes ≡ line at said text parts → LineOf said text parts bytes }
    // TAG blocks and a sentence give it.
    ensures line_only { (at : ℕ) (bytes text : List ℕ) (said : Said) (parts : SentenceParts)
        → LineOf said text parts bytes → item at bytes ≡ line at said text parts }
    // Which fault it is.
    ensures exact { result ≡ read bytes.now }
{
    start(bytes)
}
