//! What is promised of the notes of a table of subjects, of which the rows are one. Each law is a function that does nothing, and whose
//! clause is the law.
ghost use Rattle.gate_model.specs.ChoiceStandsLaws.{OpeningStandsChosen, MessagesStandChosen, ClaimsStandChosen, OtherEntriesStandChosen, MessagesFitChosen};

/// With nothing noted, the notes of as many subjects as there are timeouts stand for the empty history.
pub fn nothing_noted_stands_for_nothing()
    ensures { OpeningStandsChosen }
{}

/// The notes stand for one more frame that is no claim as they do for those before it, whether it completes a message or none; and the
/// message is selected by them exactly where the history selects it.
pub fn messages_are_noted()
    ensures { MessagesStandChosen }
{}

/// A claim completes no message, and with nothing noted any more of the addresses that it takes from others, the notes stand for it.
/// Datagrams, ticks and commands leave them as they are.
pub fn other_entries_note_nothing()
    ensures claims { ClaimsStandChosen }
    ensures others { OtherEntriesStandChosen }
{}

/// A message is from one of the addresses of which notes are kept.
pub fn messages_can_be_noted()
    ensures { MessagesFitChosen }
{}
