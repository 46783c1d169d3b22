//! The TAG blocks that IEC 61162-450 puts before a sentence: who speaks, to whom, in which group of lines, and the
//! count of the line.
//!
//! A block is `\`, parameters divided by commas, `*`, a sum of two hexadecimal digits and `\`; a parameter is a code,
//! `:` and a value. What is read is lent from the line; nothing takes memory.
//!
//! `GroupAssembler` joins the sentences of a group of lines; its memory is reserved when it is made.
#![tactic(auto)]

mod byte;
mod fault;
mod form_laws;
mod group_answers;
mod group_assembler;
mod group_key;
mod group_laws;
mod group_part;
mod group_verdict;
mod number;
mod reading;
mod tag;
mod values;
mod writing;

pub use fault::{TagFault, TagRule};
pub use form_laws::a_form_fault_is_where_no_blocks_go_on;
pub use group_answers::{GroupFed, GroupOutcome};
pub use group_assembler::GroupAssembler;
pub use group_key::GroupKey;
pub use group_laws::{
    group_is_open_prefix, groups_are_runs, keys_follow_groups, lines_change_their_key_alone,
    lines_step_with_groups,
};
pub use group_part::GroupPart;
pub use reading::read;
pub use slot_views::View;
pub use tag::Tag;
pub use writing::{MOST_CODE, MOST_COUNT, Packet, TagParts, write};
