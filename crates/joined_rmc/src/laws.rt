//! What is promised of RMC besides. Each law is a function that does nothing, and whose clause is the law.
ghost use Rattle.joined_rmc.specs.JoinStands.{CommandsKeepJoins};

/// What stands for a history stands for it with a command to go to an address as well, so no command is joined.
pub fn commands_keep_joins()
    ensures { CommandsKeepJoins }
{}
