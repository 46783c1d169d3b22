//! Cases of the definition, computed: the lines of a capture and all that is written of them.
ghost use Rattle.replaying.specs.ReplayCases as replay_cases;

/// The text of captures.
pub fn captures_are_replayed()
    ensures one_line { replay_cases.OneLine }
    ensures backwards { replay_cases.Backwards }
    ensures cut_off_in_data { replay_cases.CutOffInData }
    ensures cut_off_in_identifier { replay_cases.CutOffInIdentifier }
    ensures not_extended { replay_cases.NotExtended }
{}
