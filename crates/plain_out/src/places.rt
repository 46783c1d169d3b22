//! The fields of a datagram's sentences, and which of them say something.
ghost use Rattle.std.specs.Prelude.{◌≡◌, drop};
ghost use Rattle.datagram450.specs.Datagram.{item_view};
ghost use Rattle.sentence_text.specs.Fields.{field_at_front, fields_of};
ghost use Rattle.plain_out.specs.Pace.{first_place, is_good, loses, places_in, with_fields, with_item, with_items, with_place};

use arrayvec::ArrayVec;
use datagram450::{LineItem, LineIter, lines};
use std::marker::Model;

/// The most fields that are kept of a datagram: more than one of any stream has.
const MOST_PLACES: usize = 32;

/// Of each field of a datagram's sentences, in order, whether it says something.
#[derive(Drop)]
pub(crate) struct Places {
    good: ArrayVec<bool, MOST_PLACES>,
}

impl Model for Places {
    ghost use Rattle.std.specs.Prelude.{Bool, List};

    ghost Value = { List Bool };

    ghost view = { λ p. p.good.items };
}

impl Places {
    /// Those of a datagram.
    pub(crate) fn of(datagram: &[u8]) -> Places
        ensures { result ≡ places_in datagram.now }
    {
        let mut places = Places {
            good: ArrayVec::new(),
        };
        if let Ok(items) = lines(datagram) {
            places.add_lines(items);
        }
        places
    }

    /// Appends those of each line.
    fn add_lines(&mut self, items: LineIter<'_>)
        ensures { self.new ≡ with_items self.old items.entry }
    {
        let mut items = items;
        while let Some(item) = items.next() {
            self.add_line(&item);
        }
    }

    /// Appends those of a line.
    fn add_line(&mut self, item: &LineItem<'_>)
        ensures { self.new ≡ with_item self.old (item_view item.now) }
    {
        if let LineItem::Line { sentence, .. } = item {
            self.add_fields(sentence.body);
        }
    }

    /// Appends those of a sentence's fields, each of which stands behind its comma.
    fn add_fields(&mut self, body: &[u8])
        ensures { self.new ≡ with_fields self.old (fields_of body.now) }
    {
        let mut rest = body;
        while let [first, behind @ ..] = rest {
            if *first == b',' {
                self.add(is_good_at_front(behind));
            }
            rest = behind;
        }
    }

    /// Appends one, where there is room.
    fn add(&mut self, good: bool)
        ensures { self.new ≡ with_place self.old good }
    {
        let _room = self.good.try_push(good);
    }

    /// Whether a field that says something here says nothing in another datagram of the stream.
    pub(crate) fn loses(&self, after: &Places) -> bool
        ensures { result ≡ loses self.now after.now }
    {
        loses(self.good.as_slice(), after.good.as_slice())
    }
}

/// Whether the field before the next comma says something.
fn is_good_at_front(bytes: &[u8]) -> bool
    ensures { result ≡ is_good (field_at_front bytes.now) }
{
    match bytes {
        [] | [b',', ..] => false,
        [b'V' | b'N' | b'0'] | [b'V' | b'N' | b'0', b',', ..] => false,
        _ => true,
    }
}

/// Whether a field that says something in the former says nothing in the latter.
fn loses(before: &[bool], after: &[bool]) -> bool
    ensures { result ≡ loses before.now after.now }
{
    let mut before = before;
    let mut after = after;
    while let [was, others @ ..] = before {
        let (is, behind) = first_of(after);
        if *was && !is {
            return true;
        }
        before = others;
        after = behind;
    }
    false
}

/// The first of these, and what follows it; false where there is none.
fn first_of(places: &[bool]) -> (bool, &[bool])
    ensures first { result.0 ≡ first_place places.now }
    ensures others { result.1.now ≡ drop 1 places.now }
{
    match places {
        [first, others @ ..] => (*first, others),
        [] => (false, places),
    }
}
