//! What a line is to the open group of its key.
ghost use Rattle.std.specs.Prelude.{◌≡◌, Option, option_map};
ghost use Rattle.slot_views.specs.Slots.{Entry};
ghost use Rattle.slot_views.specs.Answers.{kept_of};
ghost use Rattle.tag_block.specs.Groups as groups;

use crate::group_part::GroupPart;
use slot_views::Kept;

/// What a line is.
#[derive(Clone, Copy)]
pub enum GroupVerdict {
    /// The first line of a group.
    Opens,
    /// The next line of the group, with the group's total.
    Follows,
    /// Neither.
    Breaks,
}

/// What the line is, by what is kept of the open group of its key.
pub(crate) fn verdict_of(kept: Option<Kept>, part: GroupPart) -> GroupVerdict
    ensures { (o : Option Entry) → kept ≡ option_map kept_of o → result ≡ groups.verdict o part }
{
    if part.number == 1 {
        return GroupVerdict::Opens;
    }
    match kept {
        Some(kept) => {
            if follows(kept, part) {
                GroupVerdict::Follows
            } else {
                GroupVerdict::Breaks
            }
        }
        None => GroupVerdict::Breaks,
    }
}

// Whether the line has the group's total, and the number after those of the lines so far.
fn follows(kept: Kept, part: GroupPart) -> bool
    ensures { (e : Entry) → kept ≡ kept_of e → result ≡ groups.follows e part }
{
    kept.need == u16::from(part.total) && u32::from(kept.next) + 1 == u32::from(part.number)
}
