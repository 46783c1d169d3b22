//! What is promised of what the gateway keeps of the network. Each law is a function that does nothing, and whose clause is the law.
ghost use Rattle.gate_model.specs.NetLaws.{OpeningStandsNet, TimeStandsNet, ItemsStandNet, DatagramsStandNet, OtherEntriesStandNet, AnswersArePlain, ItemsFit, SequencesFit};

/// With nothing kept, what is kept of the network stands for that nothing came.
pub fn nothing_stands_for_nothing()
    ensures { OpeningStandsNet }
{}

/// What stands at a moment stands at a later one without the groups that are overdue, and these are reported as the history says.
pub fn groups_end_as_time_passes()
    ensures { TimeStandsNet }
{}

/// Every answer of the assembler of groups says the plain one: whether the line came out of order, whether there was no room, and the
/// sentences of the group that it completes.
pub fn group_answers_are_plain()
    ensures { AnswersArePlain }
{}

/// What is kept stands for one more item of a datagram as it does for those before it, and the item gives exactly what the history says:
/// its report, what its group breaks, the faults of its sentences, and of each selected reading its frames or that the gateway isn't ready.
pub fn items_stand()
    ensures { ItemsStandNet }
{}

/// So does a datagram by its items one after another; and every other entry leaves what is kept as it is.
pub fn datagrams_stand()
    ensures datagrams { DatagramsStandNet }
    ensures others { OtherEntriesStandNet }
{}

/// Of every item of a datagram the calls can be made: a line of a group has a place in one, no sentence is too long, and a source is noted by
/// a place among those that are listed. The sequences that are kept are from 0 to 7.
pub fn calls_can_be_made()
    ensures items { ItemsFit }
    ensures sequences { SequencesFit }
{}
