//! What is promised of documents without a key of the parts that are read beside the settings. Each law is a function that does nothing, and
//! whose clause is the law.
ghost use Rattle.gate_config.specs.Alone.{FilesSaySettings, KeysSaySettings};

/// Where no key of a further part stands, all that a document says is its settings, and reading for further parts finds no fault. So
/// [`read_whole`](crate::read_whole) gives what [`read_all`](crate::read_all) gives: the same settings with nothing beside them, or the same
/// fault.
pub fn settings_stand_alone()
    ensures keys { KeysSaySettings }
    ensures files { FilesSaySettings }
{}
