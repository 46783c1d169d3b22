//! What is promised of what the gateway keeps of whose messages are said and of what was said. Each law is a function that does nothing,
//! and whose clause is the law.
ghost use Rattle.gate_model.specs.SaidLaws.{OpeningStandsSaid, MessagesStandSaid, ClaimsStandSaid, OtherEntriesStandSaid, DatagramsAreOfAll, MessagesAreTold, MessagesFit, ClaimsFit};
ghost use Rattle.gate_model.specs.SaidFits.{CountsFit, LinesFit, ReadingsFit};

/// With nothing kept, what is kept of what was said stands for the empty history.
pub fn nothing_said_stands_for_nothing()
    ensures { OpeningStandsSaid }
{}

/// What is kept stands for one more frame that is no claim as it does for those before it, whether it completes a message or none, and
/// the message is said exactly as the history says it: in one datagram where it is selected, and else not.
pub fn messages_stand()
    ensures { MessagesStandSaid }
{}

/// A claim completes no message, and with nothing noted any more of the addresses that it takes from others, what is kept stands for it.
/// Datagrams, ticks and commands leave what is kept as it is.
pub fn other_entries_stand()
    ensures claims { ClaimsStandSaid }
    ensures others { OtherEntriesStandSaid }
{}

/// The datagram that is made from the counts that are kept is the one that is made of all that was said before.
pub fn datagrams_are_of_all_that_was_said()
    ensures { DatagramsAreOfAll }
{}

/// Of a message that is complete the source, the NAME, the PGN and the reading are told; it is reported where it is too short; and it
/// gives the command that the history says.
pub fn messages_are_told()
    ensures { MessagesAreTold }
{}

/// A message is from one of the addresses of which notes are kept, and so are the addresses that a claim takes from others.
pub fn sources_can_be_noted()
    ensures messages { MessagesFit }
    ensures claims { ClaimsFit }
{}

/// The counts that are kept stay below those at which a count and a code of IEC 61162-450 begin again. So the numbers of the TAG block of
/// each line of a reading that is said are ones that can be written; a valid reading has one sentence or two of at most 82 bytes, a line
/// has at most 32 bytes more, and the datagram finds room where it is sent from.
pub fn datagrams_can_be_written()
    ensures counts { CountsFit }
    ensures lines { LinesFit }
    ensures readings { ReadingsFit }
{}
