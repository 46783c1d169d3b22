ghost use Rattle.std.specs.Prelude.{◌≡◌, ◌+◌, ◌≤◌, length, IfOk, IfErr, IfSome};
ghost use Rattle.tag_block.specs.Reading as tags;
ghost use Rattle.sentence_text.specs.Reading as sentences;
ghost use Rattle.datagram450.specs.Datagram.{item, item_view, tag_rule as rule_of_tag, sentence_rule as rule_of_sentence, IsLine, longest_datagram};

use report_rules::{NO_SOURCE, SENTENCE_FORM, SENTENCE_SUM, TAG_FORM, TAG_SUM};
use sentence_text::{Sentence, SentenceFault, SentenceRule};
use tag_block::{Tag, TagFault, TagRule};

/// How many bytes are tried as one line before its end is looked for. More are mostly several lines.
const MOST_ALONE: usize = 240;

/// What a line of a datagram gives.
#[derive(Clone, Copy)]
pub enum LineItem<'a> {
    /// TAG blocks and a sentence.
    Line {
        /// Where the line begins in the datagram.
        at: u16,
        tag: Tag<'a>,
        /// The bytes of the sentence, CR and LF included.
        text: &'a [u8],
        sentence: Sentence<'a>,
    },
    /// The first rule that is broken, by its number: `LINE_FORM` for a rest without LF, `TAG_FORM`, `TAG_SUM`, `NO_SOURCE`,
    /// `SENTENCE_FORM`, `SENTENCE_SUM`, or `TOO_MANY_LINES` (of `report_rules`).
    Bad {
        rule: u8,
        /// Where the rule is broken in the datagram.
        at: u16,
    },
}

fn tag_rule(rule: TagRule) -> u8
    ensures { result ≡ rule_of_tag rule }
{
    match rule {
        TagRule::Form => TAG_FORM,
        TagRule::Sum => TAG_SUM,
        TagRule::NoSource => NO_SOURCE,
    }
}

fn sentence_rule(rule: SentenceRule) -> u8
    ensures { result ≡ rule_of_sentence rule }
{
    match rule {
        SentenceRule::Long
        | SentenceRule::Start
        | SentenceRule::Address
        | SentenceRule::NoSum
        | SentenceRule::Byte
        | SentenceRule::End => SENTENCE_FORM,
        SentenceRule::Sum => SENTENCE_SUM,
    }
}

/// What the TAG blocks of the line say, and how many bytes they have.
fn read_tag<'a>(line: &'a [u8]) -> Result<(Tag<'a>, usize), TagFault>
    ensures exact { tags.seen result ≡ tags.read line.now }
    ensures length { IfOk result (λ t. t.1 ≤ length line.now) }
    ensures place { IfErr result (λ f. f.place ≤ length line.now) }
{
    tag_block::read(line)
}

#[tactic(auto, using(crate::proofs::SentencePlaces::sentence_place))]
fn read_sentence<'a>(text: &'a [u8]) -> Result<Sentence<'a>, SentenceFault>
    ensures exact { sentences.seen result ≡ sentences.read text.now }
    ensures place { IfErr result (λ f. f.place ≤ length text.now) }
{
    sentence_text::read(text)
}

/// What the line gives that begins at this place.
#[tactic(auto, unfolding(crate::specs::Datagram::item))]
pub(crate) fn read_line<'a>(at: u16, line: &'a [u8]) -> LineItem<'a>
    requires { at + length line.now ≤ longest_datagram }
    ensures { item_view result ≡ item at line.now }
{
    let (tag, length) = match read_tag(line) {
        Ok((tag, length)) => (tag, length),
        Err(fault) => {
            return LineItem::Bad {
                rule: tag_rule(fault.rule),
                at: at + fault.place as u16,
            };
        }
    };
    let text = line.split_at(length).1;
    match read_sentence(text) {
        Ok(sentence) => LineItem::Line {
            at,
            tag,
            text,
            sentence,
        },
        Err(fault) => LineItem::Bad {
            rule: sentence_rule(fault.rule),
            at: at + length as u16 + fault.place as u16,
        },
    }
}

/// What a datagram gives from this place on, where all of that is one short line that says something: most datagrams are
/// of one line, and its end needn't be looked for.
#[tactic(auto, using(crate::proofs::LineBytes::line_alone))]
pub(crate) fn only_line<'a>(at: u16, rest: &'a [u8]) -> Option<LineItem<'a>>
    requires { at + length rest.now ≤ longest_datagram }
    ensures { IfSome result (λ i. IsLine rest.now × (item_view i ≡ item at rest.now)) }
{
    if rest.len() > MOST_ALONE {
        return None;
    }
    match read_line(at, rest) {
        LineItem::Line {
            at,
            tag,
            text,
            sentence,
        } => Some(LineItem::Line {
            at,
            tag,
            text,
            sentence,
        }),
        LineItem::Bad { .. } => None,
    }
}
