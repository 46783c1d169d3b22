//! What is promised of further quantities besides what is done at each event.
ghost use Rattle.further_bridge.specs.Promises.{CommandsLeaveFurther};

/// What stands for a history stands for it with a command as well, so it isn't called for one.
pub fn commands_leave_further_quantities()
    ensures { CommandsLeaveFurther }
{}
