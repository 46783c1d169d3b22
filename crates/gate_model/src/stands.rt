//! All that a gateway keeps stands for everything that ever came. Each law is a function that does nothing, and whose clause is the law.
ghost use Rattle.gate_model.specs.StandsLaws.{OpeningStands, TimeStands, EntriesStand, CommandsStand, TooEarlyIsTold, OpeningIsReached, StepsFit, CommandsFit};
ghost use Rattle.gate_model.specs.StandsFits.{AllReachedFits};
ghost use Rattle.gate_model.specs.StandsRuns.{EventsStand, RunsStand};

/// A gateway that was opened stands for that nothing came, whenever it starts.
pub fn opening_stands()
    ensures { OpeningStands }
{}

/// At a later moment what hasn't ended stands for the same history, and what has ended is told as the history says: fast packets, then
/// sessions of the transport protocol, then groups of lines.
pub fn time_stands()
    ensures { TimeStands }
{}

/// Each entry that isn't earlier than the last leaves what stands for the history with it, gives exactly what the history says, with a datagram
/// where the message is selected that it completes, and completes the message that the history says: a frame, a datagram, a tick, and a command at the moment of the last entry, when nothing is overdue.
pub fn entries_stand()
    ensures entries { EntriesStand }
    ensures commands { CommandsStand }
{}

/// An event is handled exactly where it isn't earlier than the last entry; else it is reported and changes nothing.
pub fn too_early_is_told()
    ensures { TooEarlyIsTold }
{}

/// A gateway that was opened with settings that can be is one of which the laws hold, before and after its start; and by every event, and by
/// every command, it becomes such a one again. All that is told finds room among 4095 places, and a
/// datagram besides.
pub fn what_was_reached_is_reached_again()
    ensures opening { OpeningIsReached }
    ensures steps { StepsFit }
    ensures commands { CommandsFit }
{}

/// At all that was reached the calls can be made: of the addresses, of what is in the making, and of what was noted, said and sent.
pub fn calls_can_be_made_at_what_was_reached()
    ensures { AllReachedFits }
{}

/// So an event with the command that it completes makes of a gateway one that stands for the history then, and gives what the history says;
/// and all events, one after another from the start on, give what the definition over the whole history says.
pub fn events_stand()
    ensures events { EventsStand }
    ensures runs { RunsStand }
{}
