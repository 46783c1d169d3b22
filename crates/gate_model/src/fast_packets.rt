//! What a receiver keeps of the fast packets stands for the history. Each law is a function that does nothing, and whose clause is the law.
ghost use Rattle.gate_model.specs.FastLaws.{StandingHoldsFast, NothingStandsFast, TimeEndsFastPackets};
ghost use Rattle.gate_model.specs.FastLaws.{ClaimsGiveUpFast, CommandsLeaveFast, FastAnswersArePlain};
ghost use Rattle.gate_model.specs.FastLaws.{FramesStandFast, OthersLeaveFast, DatagramsLeaveFast, TicksLeaveFast};

/// With no fast packet kept, a receiver begins. What stands for a history holds what is open in it: it lists the keys that are open in
/// their order, and has room for an opener exactly where that is admitted.
pub fn no_fast_packet_stands_for_no_history()
    ensures start { NothingStandsFast }
    ensures holds { StandingHoldsFast }
{}

/// At a later moment what hasn't expired stands for the same history, and what has expired is told as the history says.
pub fn time_ends_fast_packets()
    ensures { TimeEndsFastPackets }
{}

/// When addresses change hands, the fast packets of the address that was left and those of the one that was won end, and are told in that
/// order, as the history says; all others stand for the history with that claim. A command changes nothing of fast packets.
pub fn fast_packets_end_with_their_addresses()
    ensures claims { ClaimsGiveUpFast }
    ensures commands { CommandsLeaveFast }
{}

/// Every answer of the assembler of fast packets is the plain one: whether a message is given up for another one, why the frame is refused,
/// and the payload of the message that it completes.
pub fn fast_answers_are_plain()
    ensures { FastAnswersArePlain }
{}

/// One frame of a fast packet from a source that holds its address leaves what stands for the history with it, and gives what the history
/// says: the rules that it breaks, and the message that it completes. An opener finds room exactly where the slots aren't full for its key.
pub fn fast_frames_stand()
    ensures { FramesStandFast }
{}

/// Any other frame that is no claim, a datagram and a tick leave the fast packets as they are, which stand for the history with them.
pub fn other_entries_leave_fast_packets()
    ensures frames { OthersLeaveFast }
    ensures datagrams { DatagramsLeaveFast }
    ensures ticks { TicksLeaveFast }
{}
