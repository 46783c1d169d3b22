//! What the place of a fault says about the line.
ghost use Rattle.tag_block.specs.FormLaws.{FormFaultsTell};

/// Where a line is refused for its form, the bytes before the place begin TAG blocks, and together with the byte at the place, where
/// the line has one, they begin none, whatever would follow. Else whole blocks are at the front, and at the place stands, whole, a
/// value with the text of their last `g`, which is no group, or of their last `n`, which is no count. Where the line spells that text
/// behind the same code more than once, this doesn't say which of them is meant.
pub fn a_form_fault_is_where_no_blocks_go_on()
    ensures { FormFaultsTell }
{}
