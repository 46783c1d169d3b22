//! What is promised of plotters besides. Each law is a function that does nothing, and whose clause is the law.
ghost use Rattle.navigation.specs.NavLaws.{OneDevice};
ghost use Rattle.navigation.specs.Promises.{CommandsKeepNav};

/// All that stands in one datagram is of one device: of the leg that completes at the event, and of the error beside it. The error is of the same address,
/// NAME and claim. It came behind a leg of the same goal, and isn't older than the timeout. Where the status of RMB is `A`, the leg before this one, of the
/// same device, has the same goal.
pub fn values_are_of_one_device()
    ensures { OneDevice }
{}

/// What stands for a history stands for it with a command to go to an address as well: a command is no event for plotters.
pub fn commands_keep_navigation()
    ensures { CommandsKeepNav }
{}
