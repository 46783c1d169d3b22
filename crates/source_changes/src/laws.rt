//! What is promised of source changes besides. Each law is a function that does nothing, and whose clause is the law.
ghost use Rattle.source_changes.specs.WatchStands.{CommandsKeepWatchedNames};

/// The devices that rows are taken from, which stand for a history, stand for it with a command to go to an address as well: no row is taken
/// from it.
pub fn commands_keep_watched_names()
    ensures { CommandsKeepWatchedNames }
{}
