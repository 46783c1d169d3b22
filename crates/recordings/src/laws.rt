//! What the recording of a run is good for. Each law is a function that does nothing, and whose clause is the law.
ghost use Rattle.recordings.specs.IdleLaws.{StartIsIdle, IdleTicks, BusyEvents, BusyGate};
ghost use Rattle.recordings.specs.Laws.{RecordingsAreTold, RecordingsReplay};
ghost use Rattle.recordings.specs.RecordedRuns.{RecordedRunsReplay};

/// A tick at which the gateway and the parts beside it emit nothing can stand anywhere among the events, or be left out: where the next event
/// isn't earlier than the tick, all that is emitted from then on is the same. A tick at the moment of the start, before anything came, is one
/// at which nothing is emitted.
pub fn idle_ticks_change_nothing()
    ensures start { StartIsIdle }
    ensures one { IdleTicks }
{}

/// So all such ticks can be left out at once, each judged by all that came before it, such ticks too: events whose moments don't go back give
/// the same with them and without them, after any history and from the start of a bridge.
pub fn recordings_need_no_idle_ticks()
    ensures events { BusyEvents }
    ensures start { BusyGate }
{}

/// The recording of a run that was served to its end, given to a replay with the same settings, gives all that the gateway made in the run: each
/// frame, datagram and report in order, at its moment and as it was due, also where its send failed. What came and was no event is in neither. It
/// holds for every run in which no reading of the clock reaches 10^16 microseconds.
pub fn recordings_replay()
    ensures { RecordingsReplay }
{}

/// The lines of what such a run wrote that don't hold ` rule ` are the recording, in order and each whole, and so are those whose second word
/// isn't `rule`: each report is one line with this second word, and no recorded line holds the word or an LF.
pub fn recordings_are_told()
    ensures { RecordingsAreTold }
{}

/// A `run` of `serve` ends with status 0, and its file asks for a recording. A `run` of `replay` with this file is given the first run's lines
/// whose second word isn't `rule`, and ends with status 0 too. Then it writes each frame, datagram and report that the gateway made in the
/// first run, in order, at its moment and as it was due, also where its send failed. What came and was no event is in neither.
///
/// Links, clock, source and sink tell, and no reading of the clock reaches 10^16 microseconds. What a run says is what
/// `gateway_commands::run` says by `serves` and `replays`.
pub fn recorded_runs_replay()
    ensures { RecordedRunsReplay }
{}
