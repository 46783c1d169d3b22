//! What is promised of joined headings besides. Each law is a function that does nothing, and whose clause is the law.
ghost use Rattle.joined_heading.specs.HeadingLaws.{MeasuredComeFirst, ValuesAreOfMessages};
ghost use Rattle.joined_heading.specs.Promises.{CommandsKeepHeadings};

/// Each value of a joined heading is of one message: the heading and the deviation of the magnetic heading that was selected, the variation of the same
/// message or of the last one of PGN 127258 that was selected, whose sender holds its address ever since, and that isn't older than the timeout.
/// There is no variation only where neither says one. Nothing is said only where nothing is selected, or no magnetic heading is.
pub fn values_are_of_their_messages()
    ensures { ValuesAreOfMessages }
{}

/// No true heading is computed beside one that is measured: whose last message that was selected is usable, of a sender that holds its address ever since,
/// and not older than the timeout of its row.
pub fn measured_headings_come_first()
    ensures { MeasuredComeFirst }
{}

/// What stands for a history stands for it with a command to go to an address as well: a command is no event for joined headings.
pub fn commands_keep_headings()
    ensures { CommandsKeepHeadings }
{}
