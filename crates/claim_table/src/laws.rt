//! Laws of address claim, over every list of claims and commands. Each is a function that does
//! nothing, and whose clause is the law.

ghost use Rattle.claim_table.specs.Laws.{CommandsKeepHolders, DefenceKeeps, FindsFirstFree, HoldersAreDated};
ghost use Rattle.claim_table.specs.Laws.{IndicesMayStop, NameStays, SmallerNamesKeep, StaysSound, WonIsNotLeft};

/// Every holder has its address since an index that the list of events has reached.
#[tactic(auto, using(crate::proofs::LawLemmas::holders_are_dated))]
pub fn holders_are_dated()
    ensures { HoldersAreDated }
{}

/// A gateway that moves goes to the first address without a holder after the one that it lost, in
/// cyclic order over 0 to 251, and nowhere exactly where each of them has a holder.
#[tactic(auto, using(crate::proofs::FirstFreeLemmas::finds_first_free))]
pub fn the_next_address_is_the_first_free()
    ensures { FindsFirstFree }
{}

/// No list of claims and commands gives a NAME two addresses, or gives the gateway's own address or
/// its NAME to a holder.
pub fn tables_stay_sound()
    ensures { StaysSound }
{}

/// After every list of claims and commands, a claim takes no address from a NAME that is smaller than
/// the claiming one, the gateway's own address included.
#[tactic(auto, using(crate::proofs::StepLemmas::smaller_names_keep))]
pub fn smaller_names_keep_their_addresses()
    ensures { SmallerNamesKeep }
{}

/// After every list of claims and commands, a defence changes nothing but the answer, except that the
/// claiming NAME leaves the other address that it held.
#[tactic(auto, using(crate::proofs::StepLemmas::defence_keeps))]
pub fn a_defence_changes_nothing()
    ensures { DefenceKeeps }
{}

/// The address that a claim wins from another NAME is the one that was claimed, and not one that the claiming NAME leaves.
#[tactic(auto, using(crate::proofs::LawLemmas::won_is_not_left))]
pub fn the_address_won_is_not_the_one_left()
    ensures { WonIsNotLeft }
{}

/// The gateway keeps its NAME, and a command keeps every holder of an address with the index since which it holds it.
#[tactic(auto, using(crate::proofs::LawLemmas::name_stays, crate::proofs::LawLemmas::command_keeps_holders))]
pub fn names_and_holders_stay()
    ensures name { NameStays }
    ensures holders { CommandsKeepHolders }
{}

/// A gateway whose count of entries has stopped, so that later indices are all one, answers each claim and each command as one
/// that counts on, and keeps the same table but for those indices.
#[tactic(auto, using(crate::proofs::RenumberedLemmas::indices_may_stop))]
pub fn indices_may_stop()
    ensures { IndicesMayStop }
{}
