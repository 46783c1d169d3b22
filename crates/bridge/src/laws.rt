//! What is promised of the bridge besides. Each law is a function that does nothing, and whose clause is the law.
ghost use Rattle.parts.specs.PartSteps.{KeepsCommands};
ghost use Rattle.bridge.specs.Alone.{RunsAlone, StepsAlone};
ghost use Rattle.bridge.specs.Beside.{are_beside};
ghost use Rattle.bridge.specs.Gate.{NothingFurther};

/// A gateway of which no further key asks a part, and that says no plain sentences, emits what the gateway, its answers, RMC and the reports of
/// ships around give.
pub fn nothing_further_changes_nothing()
    ensures { NothingFurther }
{}

/// A gateway of settings alone emits, at each event and in each run, what the gateway, its answers, RMC and the reports of ships around give:
/// a definition that names no further part.
pub fn settings_run_alone()
    ensures steps { StepsAlone }
    ensures runs { RunsAlone }
{}

/// What the parts keep, which stands for a history, stands for it with a command to go to an address as well: a command is no event for a part.
pub fn commands_keep_parts()
    ensures { KeepsCommands are_beside }
{}
