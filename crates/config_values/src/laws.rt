//! What a valid configuration promises. Each law is a function that does nothing, and whose clause is the law.
ghost use Rattle.config_values.specs.Laws.{ConfigsAreSettings, LimitsHold, RowsAreSaid, RulesAreByNumber, TablesOpen};

/// Of each kind one message or more may be open, and no more than an assembler can hold.
#[tactic(auto, using(crate::proofs::SettingsLemmas::limits_hold))]
pub fn limits_hold()
    ensures { LimitsHold }
{}

/// The gateway can begin with its address, each preset has an address that a device can hold, no two of them share an address or a
/// NAME, and none has the gateway's own.
pub fn tables_open()
    ensures { TablesOpen }
{}

/// Each row's talker is two capital letters, and its timeout at most a minute.
#[tactic(auto, using(crate::proofs::SettingsLemmas::rows_are_said))]
pub fn rows_are_said()
    ensures { RowsAreSaid }
{}

/// The settings of a valid configuration, whoever is ignored, are such that a gateway can be made of them, and that what each entry gives
/// fits its room; the rule of each row is that of its place, and all ignore the same devices.
#[tactic(auto, using(crate::proofs::SettingsLemmas::are_settings, crate::proofs::SettingsLemmas::rules_are_by_number))]
pub fn configurations_are_settings()
    ensures settings { ConfigsAreSettings }
    ensures rules { RulesAreByNumber }
{}
