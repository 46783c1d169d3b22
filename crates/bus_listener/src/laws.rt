//! What is promised of a listener besides what it does at each event.
ghost use Rattle.bus_listener.specs.Promises.{CommandsLeaveListening, MessagesKeepTheLimit};

/// A listener that stands for a history stands for it with a command as well, so it isn't called for one.
pub fn commands_leave_the_listener()
    ensures { CommandsLeaveListening }
{}

/// After every history, at every later moment, no more messages are open than the listener has slots, all parameter groups together.
pub fn open_messages_keep_the_limit()
    ensures { MessagesKeepTheLimit }
{}
