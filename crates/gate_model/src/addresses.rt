//! What the gateway keeps of the addresses of the bus stands for the history. Each law is a function that does nothing, and whose clause is
//! the law.
ghost use Rattle.gate_model.specs.AddressStands.{OpeningStandsAddresses, EntriesStandAddresses, StandingTellsAlike, StandingFits};
ghost use Rattle.gate_model.specs.AddressStands.{ClaimsAreTold, CommandsAreTold, FramesAreTold};

/// The gateway begins with its presets and its own address. What it keeps is, after every entry, what is known after the history, but that
/// entries are counted up to the greatest number of 64 bits.
pub fn addresses_stand()
    ensures start { OpeningStandsAddresses }
    ensures entries { EntriesStandAddresses }
{}

/// What is kept tells the NAME of each address, the gateway's own address, whether it is ready and whether it obeys, what a frame is to it,
/// and the NAME of a message, as all that is known of the addresses would. The index of the next entry has 64 bits, and no address is held
/// since a later one.
pub fn addresses_tell_alike()
    ensures tells { StandingTellsAlike }
    ensures fits { StandingFits }
{}

/// Of a claim are told the addresses that were left and won by it, and what the gateway says of its own address, as the history says; and of
/// a command whether it is obeyed, the rule that it breaks, and the own address after it.
pub fn claims_and_commands_are_told()
    ensures claims { ClaimsAreTold }
    ensures commands { CommandsAreTold }
{}

/// Of a frame that is neither of a fast packet nor of the transport protocol are told, by what is kept of the addresses alone, what it is to
/// the gateway, the rules that it breaks, the message that it completes, and of a request the gateway's claim, as the history says.
pub fn plain_frames_are_told()
    ensures { FramesAreTold }
{}
