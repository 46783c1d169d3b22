//! What is promised of the bridge besides what it does at each event.
ghost use Rattle.ais_bridge.specs.Promises.{CommandsLeaveAis, ReportsAreSaid, ReportsKeepTheLimit};

/// A bridge that stands for a history stands for it with a command as well, so it isn't called for one.
pub fn commands_leave_the_bridge()
    ensures { CommandsLeaveAis }
{}

/// After every history, at every later moment, no more reports are open than the bridge has slots.
pub fn open_reports_keep_the_limit()
    ensures { ReportsKeepTheLimit }
{}

/// Each report is said in a sentence of at most 82 bytes that can be read.
pub fn reports_are_sentences()
    ensures { ReportsAreSaid }
{}
