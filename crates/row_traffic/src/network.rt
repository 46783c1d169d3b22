//! What the gateway keeps of the network (IEC 61162-450), and what a datagram makes of it and gives.
ghost use Rattle.std.specs.Prelude.{◌≡◌, ◌+◌, ◌<◌, ◌≤◌, [], ◌∷◌, ◌++◌, false, length, IfOk};
ghost use Rattle.std.specs.List.{AllByRecursion};
ghost use Rattle.sentence_text.specs.Reading.{parts};
ghost use Rattle.tag_block.specs.Reading.{said};
ghost use Rattle.datagram450.specs.Datagram.{item_view, line, IsItem, read};
ghost use Rattle.history.specs.Heard.{several};
ghost use Rattle.history.specs.Settings.{Settings};
ghost use Rattle.gate_model.specs.Endings.{groups_overdue};
ghost use Rattle.gate_model.specs.NetLines.{kept_until, taken_after, taken_emits, datagram_after, datagram_emits};
ghost use Rattle.row_traffic.specs.NetCalls.{Hears, IsHeardBy, line_of, opened_net};
ghost use Rattle.row_traffic.specs.NetCalls.{after_line, line_gives, after_item, item_gives, after_items, items_give, datagram_gives};
ghost use Rattle.gate_outbox.specs.Output.{and_told, most_told};

mod groups;
mod heard;
mod hearing;
mod rows;
mod sentences;

use crate::network::groups::{end_groups, take_part};
use crate::network::heard::Heard;
use crate::network::rows::Readings;
use crate::network::sentences::take_sentence;
use datagram450::{DatagramFault, LONGEST_DATAGRAM, LineItem, LineIter, lines};
use gate_outbox::StepEmits;
use gate_outbox::reports::at_place;
pub use heard::Came;
pub use hearing::Hearing;
use readings::ROWS;
use report_rules::{DATAGRAM_HEADER, DATAGRAM_LONG, OTHER_DESTINATION, OWN_LINE, UNLISTED_SOURCE};
use sentence_text::Sentence;
use std::alloc::{AllocError, Global};
use std::marker::Model;
use tag_block::{GroupAssembler, GroupKey, GroupPart, Tag};

/// What the gateway keeps of the network.
#[derive(Drop)]
pub struct Network {
    /// The groups of lines that are open.
    groups: GroupAssembler,
    readings: Readings,
}

impl Model for Network {
    ghost use Rattle.gate_model.specs.NetLines.{NetKept};

    ghost Value = { NetKept };

    ghost view = { λ n. record { groups = n.groups; readings = n.readings } };
}

impl Network {
    /// With nothing kept: so many groups may be open, so many sources are listed, and a source counts so many milliseconds in each
    /// row.
    pub fn new(
        alloc: Global,
        group_slots: u16,
        listed: u16,
        timeouts: &[u32; ROWS],
    ) -> Result<Network, AllocError>
        requires { listed ≤ 254 }
        ensures { IfOk result (λ n. n ≡ opened_net group_slots listed timeouts.now) }
    {
        let groups = GroupAssembler::new(alloc, group_slots)?;
        let readings = Readings::new(alloc, listed, timeouts)?;
        Ok(Network { groups, readings })
    }

    /// How many groups of lines are open.
    pub fn count(&self) -> u16
        ensures { result ≡ length self.now.groups.entries }
    {
        self.groups.count()
    }

    /// Ends the groups of lines that are overdue at the moment, in the order of their keys.
    pub fn end_overdue(&mut self, moment: u64, out: &mut StepEmits)
        ensures after { self.new ≡ kept_until moment self.old }
        ensures emits { out.new ≡ and_told most_told out.old (groups_overdue self.old.groups moment) }
    {
        end_groups(&mut self.groups, moment, out);
    }

    /// Takes a datagram: what its items give, in their order, or why it isn't read.
    pub fn datagram(&mut self, hearing: &Hearing<'_>, bytes: &[u8], out: &mut StepEmits)
        requires hears { Hears hearing.now self.old }
        ensures after { (c : Settings) → IsHeardBy c hearing.now
            → self.new ≡ datagram_after ⟦<GroupKey as Ord>⟧.cmp c hearing.now.came.moment hearing.now.came.ready self.old (read bytes.now) }
        ensures emits { (c : Settings) → IsHeardBy c hearing.now
            → out.new ≡ and_told most_told out.old (datagram_emits ⟦<GroupKey as Ord>⟧.cmp c hearing.now.came.moment hearing.now.came.ready hearing.now.came.own self.old
            (read bytes.now)) }
        ensures hears { Hears hearing.now self.new }
    {
        match lines(bytes) {
            Ok(items) => self.items(hearing, items, out),
            Err(DatagramFault::Header(place)) => out.tell(at_place(DATAGRAM_HEADER, place as u16)),
            Err(DatagramFault::Long) => out.tell(at_place(DATAGRAM_LONG, LONGEST_DATAGRAM)),
        }
    }

    /// Takes the items of a datagram, in their order.
    #[tactic(auto, using(gate_outbox::proofs::Telling::told_more, crate::proofs::Sources::still_hears))]
    fn items(&mut self, hearing: &Hearing<'_>, items: LineIter<'_>, out: &mut StepEmits)
        requires each { AllByRecursion IsItem items }
        requires hears { Hears hearing.now self.old }
        ensures after { self.new ≡ after_items ⟦<GroupKey as Ord>⟧.cmp hearing.now self.old items.entry }
        ensures emits { out.new ≡ and_told most_told out.old (items_give ⟦<GroupKey as Ord>⟧.cmp hearing.now self.old items.entry) }
        ensures hears { Hears hearing.now self.new }
    {
        let mut items = items;
        while let Some(item) = items.next() {
            self.item(hearing, &item, out);
        }
    }

    /// Takes an item of a datagram: a line, or the rule that one breaks.
    fn item(&mut self, hearing: &Hearing<'_>, item: &LineItem<'_>, out: &mut StepEmits)
        requires is { IsItem (item_view item.now) }
        requires hears { Hears hearing.now self.old }
        ensures after { self.new ≡ after_item ⟦<GroupKey as Ord>⟧.cmp hearing.now self.old (item_view item.now) }
        ensures emits { out.new ≡ and_told most_told out.old (item_gives ⟦<GroupKey as Ord>⟧.cmp hearing.now self.old (item_view item.now)) }
    {
        match item {
            LineItem::Line {
                at,
                tag,
                text,
                sentence,
            } => self.line(hearing, *at, tag, text, sentence, out),
            LineItem::Bad { rule, at: place } => out.tell(at_place(*rule, *place)),
        }
    }

    /// Takes a line, where it is of a source that is heard, and for all or for the gateway: as a line of a group, or by its sentence.
    fn line(
        &mut self,
        hearing: &Hearing<'_>,
        place: u16,
        tag: &Tag<'_>,
        text: &[u8],
        sentence: &Sentence<'_>,
        out: &mut StepEmits,
    )
        requires is { IsItem (line place (said tag.now) text.now (parts sentence.now)) }
        requires hears { Hears hearing.now self.old }
        ensures after { self.new ≡ after_line ⟦<GroupKey as Ord>⟧.cmp hearing.now self.old place (said tag.now) text.now }
        ensures emits { out.new ≡ and_told most_told out.old (line_gives ⟦<GroupKey as Ord>⟧.cmp hearing.now self.old place (said tag.now) text.now) }
    {
        if hearing.is_own(tag) {
            out.tell(at_place(OWN_LINE, place));
        } else if hearing.is_elsewhere(tag) {
            out.tell(at_place(OTHER_DESTINATION, place));
        } else {
            match hearing.place_of(tag.source) {
                Some(source) => {
                    let heard = Heard {
                        came: hearing.came,
                        place,
                        source: source as u8,
                        optional: hearing.optional,
                    };
                    self.take_line(heard, tag, text, sentence, out);
                }
                None => out.tell(at_place(UNLISTED_SOURCE, place)),
            }
        }
    }

    /// Takes a line that is heard: as a line of a group, or by its sentence.
    fn take_line(
        &mut self,
        heard: Heard,
        tag: &Tag<'_>,
        text: &[u8],
        sentence: &Sentence<'_>,
        out: &mut StepEmits,
    )
        requires is { IsItem (line heard.place (said tag.now) text.now (parts sentence.now)) }
        requires source { heard.source < self.old.readings.choices.sources }
        ensures after { (c : Settings) → self.new
            ≡ taken_after ⟦<GroupKey as Ord>⟧.cmp c heard.came.moment heard.came.ready self.old (line_of heard) (said tag.now).source text.now (several tag.now.group) }
        ensures emits { (c : Settings) → out.new
            ≡ and_told most_told out.old (taken_emits ⟦<GroupKey as Ord>⟧.cmp c heard.came.moment heard.came.ready heard.came.own self.old (line_of heard)
            (said tag.now).source text.now (several tag.now.group)) }
    {
        match several(tag.group) {
            Some(part) => take_part(
                &mut self.groups,
                &mut self.readings,
                heard,
                tag.source,
                part,
                text,
                out,
            ),
            None => take_sentence(&mut self.readings, heard, sentence, out),
        }
    }
}

/// The place in a group of two lines or more.
fn several(group: Option<GroupPart>) -> Option<GroupPart>
    ensures { result ≡ several group }
{
    group.filter(|part| part.total >= 2)
}
