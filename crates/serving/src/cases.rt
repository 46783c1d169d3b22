//! Cases of the definition, computed: turns whose receives and sends fail at times.
ghost use Rattle.serving.specs.TurnCases as turn_cases;

/// What turns give, and what goes out of it.
pub fn turns_are_served()
    ensures receives_fail { turn_cases.ReceivesFail }
    ensures a_run_is_recorded { turn_cases.ARunIsRecorded }
    ensures sends_fail { turn_cases.SendsFail }
    ensures frames_are_lines { turn_cases.FramesAreLines }
    ensures reports_are_lines { turn_cases.ReportsAreLines }
{}
