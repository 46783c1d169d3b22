//! What is promised of dates and of sentences. Each law is a function that does nothing, and whose clause is
//! the law.
ghost use Rattle.sentence_profile.specs.Laws.{DatesAreTheCalendars, EachIsASentence, EachSaidBriefly, RmcIsASentence, RmcIsGllAndVtg, SaidInOneWay};

/// The date that the definitions compute for a day is the one that the calendar has for it.
pub fn dates_are_the_calendars()
    ensures { DatesAreTheCalendars }
{}

/// A valid reading is said in one way: the relation that `sentences` promises allows the sentences that are computed, and no others.
#[tactic(auto, using(crate::proofs::Unique::said_in_one_way))]
pub fn readings_are_said_in_one_way()
    ensures { SaidInOneWay }
{}

/// A reading is said in one sentence or two, which have at most 82 bytes each where it is valid.
pub fn readings_are_said_briefly()
    ensures { EachSaidBriefly }
{}

/// A valid reading, and values of RMC in their ranges, are said in what is read as a sentence again.
#[tactic(auto, using(crate::proofs::ShortSentences::each_is_a_sentence, crate::proofs::ShortSentences::rmc_is_a_sentence))]
pub fn what_is_said_is_a_sentence()
    ensures readings { EachIsASentence }
    ensures rmc { RmcIsASentence }
{}

/// An RMC without a fault gives what a GLL of its position and a VTG of its course and speed give. Status `V` or mode `N` of the RMC is
/// `V` in the GLL and `N` in the VTG. An RMC with a fault gives its first fault, and neither reading.
#[tactic(auto, using(crate::proofs::GllAndVtg::rmc_is_gll_and_vtg))]
pub fn rmc_is_gll_and_vtg()
    ensures { RmcIsGllAndVtg }
{}
