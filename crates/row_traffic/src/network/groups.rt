//! The lines of groups (IEC 61162-450, the parameter `g` of the TAG block).
ghost use Rattle.std.specs.Prelude.{◌≡◌, ◌+◌, ◌<◌, ◌≤◌, [], ◌∷◌, ◌++◌, false, length};
ghost use Rattle.sentence_text.specs.Sentence.{longest_line};
ghost use Rattle.slot_views.specs.Traces.{unexpired};
ghost use Rattle.tag_block.specs.Groups.{IsGroupPart, key_of, fed_after};
ghost use Rattle.gate_model.specs.Endings.{groups_overdue};
ghost use Rattle.gate_model.specs.Net.{sentences_after};
ghost use Rattle.gate_model.specs.NetLines.{group_answer, sentences_within};
ghost use Rattle.row_traffic.specs.NetCalls.{line_of};
ghost use Rattle.row_traffic.specs.NetFaults.{group_fault, group_faults, part_emits};
ghost use Rattle.gate_outbox.specs.Output.{and_told, most_told};

use crate::network::heard::Heard;
use crate::network::rows::Readings;
use crate::network::sentences::take_joined;
use gate_outbox::StepEmits;
use gate_outbox::reports::of_group;
use report_rules::{GROUP_EXPIRED, GROUP_ORDER, GROUP_SLOTS_FULL};
use sentence_text::Sfi;
use tag_block::{GroupAssembler, GroupKey, GroupOutcome, GroupPart};

/// Ends the groups of lines that are overdue at the moment, in the order of their keys.
pub(crate) fn end_groups(groups: &mut GroupAssembler, moment: u64, out: &mut StepEmits)
    ensures groups { groups.new ≡ unexpired moment groups.old }
    ensures emits { out.new ≡ and_told most_told out.old (groups_overdue groups.old moment) }
{
    while let Some(key) = groups.expire_one(moment) {
        out.tell(of_group(GROUP_EXPIRED, &key));
    }
}

/// Takes a line of a group: it is fed to the open groups, its faults are reported, and where it completes its group, the sentences
/// of that are taken.
pub(crate) fn take_part(
    groups: &mut GroupAssembler,
    readings: &mut Readings,
    line: Heard,
    source: Sfi,
    part: GroupPart,
    text: &[u8],
    out: &mut StepEmits,
)
    requires part { IsGroupPart part }
    requires fits { length text.now ≤ longest_line }
    requires source { line.source < readings.old.choices.sources }
    ensures groups { groups.new ≡ fed_after ⟦<GroupKey as Ord>⟧.cmp groups.old (key_of source part) part text.now line.came.moment }
    ensures after { readings.new ≡ sentences_after readings.old (line_of line)
        (sentences_within (group_answer ⟦<GroupKey as Ord>⟧.cmp groups.old (key_of source part) part text.now line.came.moment).whole) }
    ensures emits { out.new ≡ and_told most_told out.old (part_emits ⟦<GroupKey as Ord>⟧.cmp groups.old readings.old line source part text.now) }
{
    let key = GroupKey {
        sfi: source,
        code: part.code,
    };
    let fed = groups.feed(source, part, text, line.came.moment);
    let restarted = fed.restarted;
    match fed.outcome {
        GroupOutcome::Held => tell_faults(&key, restarted, false, out),
        GroupOutcome::Complete(view) => {
            tell_faults(&key, restarted, false, out);
            take_joined(readings, line, view.bytes, out);
        }
        GroupOutcome::Order => tell_faults(&key, true, false, out),
        GroupOutcome::Full => tell_faults(&key, restarted, true, out),
    }
}

/// Reports that a line of the group came out of order, and that there was no room for its group.
fn tell_faults(key: &GroupKey, disordered: bool, full: bool, out: &mut StepEmits)
    ensures emits { out.new ≡ and_told most_told out.old (group_faults key.now disordered full) }
{
    tell_if(disordered, GROUP_ORDER, key, out);
    tell_if(full, GROUP_SLOTS_FULL, key, out);
}

/// Reports the rule, with the group, where it was broken.
fn tell_if(broken: bool, rule: u8, key: &GroupKey, out: &mut StepEmits)
    ensures emits { out.new ≡ and_told most_told out.old (group_fault broken rule key.now) }
{
    if broken {
        out.tell(of_group(rule, key));
    }
}
