//! What is promised of runs of the program. Each law is a function that does nothing, and whose clause is the law.
ghost use Rattle.gateway_commands.specs.Alone.{ReplaysAlone, ServesAlone, TurnsAlone};

/// With a file that has no key of a further part, [`run`](crate::run) gives what the gateway gives with its answers, RMC and the reports of
/// ships around. `replay` writes the text of a definition that names no further part, whatever its input is. `serve` runs a gateway of the
/// settings alone, whose turns give the items of such a definition. What a run says is what `run` says by `replays` and `serves`.
pub fn runs_stand_alone()
    ensures replays { ReplaysAlone }
    ensures serves { ServesAlone }
    ensures turns { TurnsAlone }
{}
