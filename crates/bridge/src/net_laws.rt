//! What is promised of the datagrams of all parts. Each law is a function that does nothing, and whose clause is the law.
ghost use Rattle.bridge.specs.NetLaws.{DatagramsAreRead, PlainSaysAll, PlainSaysNothingElse, ValidSettingsSpeak};

/// Each datagram that goes out at an entry, but for plain ones, is read as the sentences that were said, in their order: no reader refuses it, and
/// no line of it breaks a rule.
pub fn datagrams_are_read()
    ensures { DatagramsAreRead }
{}

/// Plain sentences that don't pause are all that was said, but for a row that a part is said in place of; those
/// that pause are some of it, in order.
pub fn plain_sentences_say_all()
    ensures all { PlainSaysAll }
    ensures some { PlainSaysNothingElse }
{}

/// What these laws ask of settings holds of all that are valid.
pub fn valid_settings_speak()
    ensures { ValidSettingsSpeak }
{}
