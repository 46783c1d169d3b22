//! What is promised of every history. Each law is a function that does nothing, and whose clause is the law.
ghost use Rattle.history.specs.AddressLaws.{AddressesAreSound, GatewaysReceive};
ghost use Rattle.history.specs.CountLaws.{SlotsCountFast, SlotsCountIso, SlotsCountGroups};
ghost use Rattle.history.specs.FreshLaws.{MessagesAreKept, ClaimsForget, CommandsForgetNone, ReadingsAreKept};
ghost use Rattle.history.specs.IsolationLaws.{Isolation, IsolationOfTwo};
ghost use Rattle.history.specs.LengthLaws.{LongDatagrams};
ghost use Rattle.history.specs.LimitLaws.{FastWithinLimit, IsoWithinLimit, GroupsWithinLimit};
ghost use Rattle.history.specs.GroupLaws.{LinesStepGroup, LinesStandAlone, TimeEndsGroup};
ghost use Rattle.history.specs.KeyLaws.{FramesStepFast, FramesKeepFast, TimeEndsFast, FramesStepIso, FramesCompleteIso, TimeEndsIso};
ghost use Rattle.history.specs.RefusalLaws.{FastRefusalsBreak, TransportRefusalsBreak};
ghost use Rattle.history.specs.ChoiceLaws.{FirstByAddresses, FirstByNotes, FirstNetByNotes, MessagesAreOfHolders};
ghost use Rattle.history.specs.IgnoringLaws.{IgnoredAreUnsaid, IgnoredAreUnnoted, IgnoredKeepNobodyBack, RanksWithoutIgnored};
ghost use Rattle.history.specs.EntryLaws.{StepsKeepHistory, EntriesSayOne};
ghost use Rattle.history.specs.RoomLaws.{FullIsReported, RefusalsAreReported};
ghost use Rattle.history.specs.FitLaws.{AllEntriesFit, DatagramsFit, RoomSuffices};
ghost use Rattle.history.specs.ListLaws.{SlotsListFast, SlotsListIso, SlotsListGroups};
ghost use Rattle.history.specs.HeardLaws.{DatagramsGiveInOrder, ReadingsCountFast};
ghost use Rattle.history.specs.NoteLaws.{FramesAreNoted};
ghost use Rattle.history.specs.RuleLaws.{FastRulesAreRefusals, SessionRulesAreVerdicts, EarlyBreaksNotReady};
ghost use Rattle.history.specs.TraceLaws.{ClaimsMoveTraces, CommandsMoveTraces};

/// After every history no NAME has two addresses and the gateway's own has no other holder, and no index since which an address is
/// held, or is the own one, is greater than the number of entries.
pub fn addresses_are_sound()
    ensures { AddressesAreSound }
{}

/// A gateway of settings of which one can be made is a receiver, of which the laws hold.
pub fn gateways_receive()
    ensures { GatewaysReceive }
{}

/// A claim takes away what came from the addresses that were lost by it, and a new own address what came to the old one; the frames
/// of all other sources count as before.
pub fn addresses_keep_their_frames()
    ensures claims { ClaimsMoveTraces }
    ensures commands { CommandsMoveTraces }
{}

/// One more fast frame of a source that holds its address does to what is open of its key what the rules of fast packets say of the
/// frames that were open, completes what they say, and changes no other key; a later moment ends what is overdue.
pub fn fast_frames_step_their_key()
    ensures step { FramesStepFast }
    ensures others { FramesKeepFast }
    ensures later { TimeEndsFast }
{}

/// A frame of fast packets is refused exactly where it leaves nothing open of its key and completes nothing.
pub fn fast_refusals_break()
    ensures { FastRefusalsBreak }
{}

/// One more transport frame does to the session on which it bears what the rules say of the frames that were open, completes what they
/// say, and changes no other session; a later moment ends what is overdue.
pub fn transport_frames_step_their_session()
    ensures step { FramesStepIso }
    ensures complete { FramesCompleteIso }
    ensures later { TimeEndsIso }
{}

/// A transport frame that bears on an open session, and finds room if it is an opener, ends it exactly where it leaves nothing open of
/// its key and completes nothing.
pub fn transport_refusals_break()
    ensures { TransportRefusalsBreak }
{}

/// The table of rules says of a fast frame, and of a transport frame, what the refusals and the verdicts of their assemblers say by what
/// is open of its key; and of an RTS that comes before the gateway is ready, rule 45.
pub fn tables_say_the_refusals()
    ensures fast { FastRulesAreRefusals }
    ensures sessions { SessionRulesAreVerdicts }
    ensures early { EarlyBreaksNotReady }
{}

/// One more taken line does to what is open of its group what the rules of groups say of the lines that were open, hands over the
/// sentences that they say, and changes no other group; a line that is in no group of two lines or more hands over its own sentence; a
/// later moment ends what is overdue.
pub fn group_lines_step_their_group()
    ensures step { LinesStepGroup }
    ensures alone { LinesStandAlone }
    ensures later { TimeEndsGroup }
{}

/// A datagram gives what its items give, one after another, each by what was heard before it; so does what a line says, of which the
/// readings are heard one after another. One more reading adds its PGN to the fast packets that were sent exactly where it is sent on
/// as one.
pub fn items_give_in_order()
    ensures order { DatagramsGiveInOrder }
    ensures fast { ReadingsCountFast }
{}

/// An event that is accepted, with the command that it completes, keeps a history one; one that is too early changes nothing.
pub fn steps_keep_history()
    ensures { StepsKeepHistory }
{}

/// An entry says nothing on the network, where it completes no message that is selected; or it says the reading of that message, in one
/// datagram by all that was said before, whose sentences are counted from then on.
pub fn entries_say_one()
    ensures { EntriesSayOne }
{}

/// What is noted of a frame, whether the receiver was ready and whether there was room for a message that it opens, is what the history
/// before it says.
pub fn frames_are_noted()
    ensures { FramesAreNoted }
{}

/// Whether a source is fresh hangs on its last message of the subject since it holds its address, whatever tells of subjects: the next one
/// takes its place, and it is forgotten exactly where the address is lost. On the network a row's last reading is never forgotten.
pub fn freshness_is_kept()
    ensures messages { MessagesAreKept }
    ensures claims { ClaimsForget }
    ensures commands { CommandsForgetNone }
    ensures readings { ReadingsAreKept }
{}

/// A rank is the first of its subject, whatever tells of subjects, exactly where no address that can be held beats it, by its holder and its
/// last message of the subject; and exactly where the notes of the subject select it that hold this of each address; so it is with rows
/// on the network, with the sources' places among those that are listed in place of addresses. Each message from an address since its
/// holder has it is of the holder's NAME.
pub fn choice_is_by_address()
    ensures first { FirstByAddresses }
    ensures notes { FirstByNotes }
    ensures net_notes { FirstNetByNotes }
    ensures names { MessagesAreOfHolders }
{}

/// Of a device that a subject isn't taken from no message is selected, nothing is noted, and it keeps no other source back; where nobody is
/// ignored, a rank is the place among the sources, and the NAME.
pub fn ignored_devices_say_nothing()
    ensures unsaid { IgnoredAreUnsaid }
    ensures unnoted { IgnoredAreUnnoted }
    ensures back { IgnoredKeepNobodyBack }
    ensures others { RanksWithoutIgnored }
{}

/// A map that holds what is open of a kind has as many places taken as keys of that kind are open, and is full for an opener exactly
/// where that finds no room.
pub fn slots_count_open_keys()
    ensures fast { SlotsCountFast }
    ensures iso { SlotsCountIso }
    ensures groups { SlotsCountGroups }
{}

/// Where such a map is in the order of the reports, the keys of its entries that pass a test are the open ones that pass it, and those of
/// its entries that end, by time or after a claim or a command, are the ones whose endings are reported, in that order.
pub fn slots_list_open_keys()
    ensures fast { SlotsListFast }
    ensures iso { SlotsListIso }
    ensures groups { SlotsListGroups }
{}

/// Which messages of a device are complete is decided by the claims, the commands and its own frames alone, as long as none of its
/// openers is refused for want of room: whatever else is on the bus.
pub fn devices_are_isolated()
    ensures { Isolation }
{}

/// Two gateways with one NAME, address and list of presets, which differ in all else, take the same messages from a device at the same
/// moments, where both hear the same claims, commands and frames of it and neither refuses an opener of it for want of room: whatever
/// else each of them hears.
pub fn devices_are_isolated_in_two()
    ensures { IsolationOfTwo }
{}

/// What ends by time, and what a tick, a frame, a command and a datagram give, is no more than the configuration has room for, by the
/// numbers of what may be open; at the greatest numbers room for 4095 emits is enough for every entry.
pub fn entries_fit()
    ensures entries { AllEntriesFit }
    ensures datagrams { DatagramsFit }
    ensures room { RoomSuffices }
{}

/// A frame breaks rule 15 exactly where it opens a message and finds no room. So no opener of a device was refused for want of room in a
/// history exactly where no frame from its address broke that rule.
pub fn refusals_are_reported()
    ensures frame { FullIsReported }
    ensures history { RefusalsAreReported }
{}

/// From the last entry of a history on, whose moments don't go back, no more messages of fast packets, sessions of the transport
/// protocol and groups of lines are open than the configuration has room for.
pub fn open_keys_keep_the_limits()
    ensures fast { FastWithinLimit }
    ensures iso { IsoWithinLimit }
    ensures groups { GroupsWithinLimit }
{}

/// A datagram of more than 1472 bytes gives rule 47 and nothing else, whatever it holds.
#[tactic(auto, using(crate::proofs::Lengths::long_datagrams))]
pub fn what_is_too_long_is_told()
    ensures datagrams { LongDatagrams }
{}
