//! What the gateway keeps of the sessions of the transport protocol stands for the history. Each law is a function that does nothing, and
//! whose clause is the law.
ghost use Rattle.gate_model.specs.SessionLaws.{StandingHolds, NothingStands, TimeEndsSessions, ClaimsGiveUp, CommandsGiveUp};
ghost use Rattle.gate_model.specs.SessionLaws.{ClaimsTellMoves, CommandsTellMoves, SessionFramesStand, AnswersAreTold};
ghost use Rattle.gate_model.specs.SessionLaws.{OthersLeaveSessions, DatagramsLeaveSessions, TicksLeaveSessions};
ghost use Rattle.gate_model.specs.SessionRuns.{AllSessionsStand};

/// With no session kept, the gateway begins. What stands for a history holds what is open in it: there are as many entries as keys that are
/// open, its keys that pass a test or end are listed in the order of the reports, and it is full exactly where an opener finds no room.
pub fn no_session_stands_for_no_history()
    ensures start { NothingStands }
    ensures holds { StandingHolds }
{}

/// At a later moment what hasn't expired stands for the same history, and what has expired is told as the history says.
pub fn time_ends_sessions()
    ensures { TimeEndsSessions }
{}

/// When addresses change hands, the sessions of the address that was left, those of the one that was won and, where the own address is
/// another one now, those to it end, and are told in that order, as the history says; all others stand for the history with that entry.
pub fn sessions_end_with_their_addresses()
    ensures claims { ClaimsGiveUp }
    ensures commands { CommandsGiveUp }
{}

/// The own address is another one exactly where a claim is answered by a move or by cannot claim, and where a command is obeyed.
pub fn answers_tell_moves()
    ensures claims { ClaimsTellMoves }
    ensures commands { CommandsTellMoves }
{}

/// A frame of the transport protocol to all or to the gateway, of a source that holds its address, leaves what stands for the history with
/// it; the rules that it breaks, the reply to its sender and the message that it completes are those that the history says. Each answer of
/// an assembler is the plain one by which this is told.
pub fn frames_step_sessions()
    ensures frames { SessionFramesStand }
    ensures answers { AnswersAreTold }
{}

/// Any other frame that is no claim, a datagram and a tick leave the sessions as they are, which stand for the history with them.
pub fn other_entries_leave_sessions()
    ensures frames { OthersLeaveSessions }
    ensures datagrams { DatagramsLeaveSessions }
    ensures ticks { TicksLeaveSessions }
{}

/// So, whatever comes, the sessions that are kept after a history stand for it at each moment from its last entry on.
pub fn kept_sessions_stand_for_all_histories()
    ensures { AllSessionsStand }
{}
