//! Cases of the definition, computed: what the parts beside the gateway give.
ghost use Rattle.bridge.specs.AddressCases as address_cases;
ghost use Rattle.bridge.specs.BeatCases as beat_cases;
ghost use Rattle.bridge.specs.FurtherCases as further_cases;
ghost use Rattle.bridge.specs.PartCases as part_cases;
ghost use Rattle.bridge.specs.WatchedCases as watched_cases;

/// Who asks what the gateway is: twice, before it is ready, and from no address.
pub fn who_asks_is_answered()
    ensures asked_twice { part_cases.AskedTwice }
    ensures asked_early { part_cases.AskedEarly }
    ensures asked_by_nobody { part_cases.AskedByNobody }
{}

/// RMC, whose fields come and go.
pub fn rmc_is_joined()
    ensures { part_cases.FieldsComeAndGo }
{}

/// The device that a row is taken from: two of which one falls silent, and one that changes its address.
pub fn changes_of_device_are_told()
    ensures first_of_two { part_cases.FirstOfTwoIsTold }
    ensures address_is_no_change { part_cases.AddressIsNoChange }
{}

/// Plain sentences: two of one datagram, and of two datagrams at once.
pub fn sentences_are_said_once_more()
    ensures two_sentences { part_cases.TwoSentences }
    ensures plain_comes_last { part_cases.PlainComesLast }
{}

/// A report of a ship, in the making while its sender's address changes hands.
pub fn reports_of_ships_end_with_a_claim()
    ensures { part_cases.ShipAcrossAClaim }
{}

/// Further quantities: their lines counted on their transmission group, of two devices the first, as plain sentences, several of one message, the
/// sea's temperature beside the row, and engines by their numbers.
pub fn further_quantities_are_said()
    ensures lines_are_counted { further_cases.LinesAreCounted }
    ensures first_of_two { further_cases.FirstOfTwoIsSaid }
    ensures said_once_more { further_cases.SaidOnceMore }
    ensures several { further_cases.SeveralAreSaid }
    ensures one_voice { further_cases.SeaGivesWay }
    ensures numbered { further_cases.EnginesAreNumbered }
{}

/// The gateway's own address: a move, the loss of the last one, and a command.
pub fn changes_of_the_own_address_are_told()
    ensures move_is_told { address_cases.MoveIsTold }
    ensures loss_is_told { address_cases.LossIsTold }
    ensures command_is_told_next { address_cases.CommandIsToldNext }
{}

/// A row under watch, which was never said and then is.
pub fn silence_of_a_watched_row_is_told()
    ensures { watched_cases.SilenceIsTold }
{}

/// Heartbeats: at their due moments, where the gateway wasn't ready at one, without an address, and while a watched row is silent.
pub fn heartbeats_are_due()
    ensures each_on_its_grid { beat_cases.EachOnItsGrid }
    ensures not_ready_not_counted { beat_cases.NotReadyNotCounted }
    ensures no_address_is_told { beat_cases.NoAddressIsTold }
    ensures silent_row_is_told { beat_cases.SilentRowIsTold }
{}
