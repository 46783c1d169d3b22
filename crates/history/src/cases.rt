//! Cases of the definition, computed: a list of events, and all that is emitted at them.
ghost use Rattle.history.specs.ClaimCases as claim_cases;
ghost use Rattle.history.specs.FastCases as fast_cases;
ghost use Rattle.history.specs.ChoiceCases as choice_cases;
ghost use Rattle.history.specs.RowCases as row_cases;
ghost use Rattle.history.specs.TransportCases as transport_cases;
ghost use Rattle.history.specs.NetCases as net_cases;
ghost use Rattle.history.specs.IsolationCases as isolation_cases;
ghost use Rattle.history.specs.NetChoiceCases as net_choice_cases;
ghost use Rattle.history.specs.GroupCases as group_cases;
ghost use Rattle.history.specs.CounterCases as counter_cases;
ghost use Rattle.history.specs.RankCases as rank_cases;
ghost use Rattle.history.specs.WindowCases as window_cases;
ghost use Rattle.history.specs.SessionCases as session_cases;
ghost use Rattle.history.specs.OwnCases as own_cases;
ghost use Rattle.history.specs.EndingCases as ending_cases;
ghost use Rattle.history.specs.LineCases as line_cases;
ghost use Rattle.history.specs.DecidingCases as deciding_cases;

/// What is emitted while addresses change hands.
pub fn addresses_change_hands()
    ensures heading_after_claim { claim_cases.HeadingAfterClaim }
    ensures taken_over { claim_cases.TakenOver }
    ensures claimed_again { claim_cases.ClaimedAgain }
    ensures defended { claim_cases.Defended }
    ensures obeyed { claim_cases.Obeyed }
    ensures not_obeyed { claim_cases.NotObeyed }
    ensures backwards { claim_cases.Backwards }
{}

/// What is emitted of fast packets.
pub fn fast_packets_are_joined()
    ensures in_turn { fast_cases.InTurn }
    ensures just_in_time { fast_cases.JustInTime }
    ensures too_late { fast_cases.TooLate }
    ensures no_room { fast_cases.NoRoom }
    ensures wrong_lengths { fast_cases.WrongLengths }
    ensures sent_twice { fast_cases.SentTwice }
    ensures out_of_order { fast_cases.OutOfOrder }
    ensures begun_again { fast_cases.BegunAgain }
    ensures longest { fast_cases.Longest }
{}

/// Whose messages are said.
pub fn sources_are_chosen()
    ensures one_heading { choice_cases.OneHeading }
    ensures first_of_two { choice_cases.FirstOfTwo }
    ensures short { choice_cases.Short }
{}

/// What is said of single messages.
pub fn messages_are_said()
    ensures time_after_claim { row_cases.TimeAfterClaim }
    ensures two_sentences { row_cases.TwoSentences }
{}

/// What is emitted of the transport protocol.
pub fn sessions_are_answered()
    ensures granted { transport_cases.Granted }
    ensures wrong_size { transport_cases.WrongSize }
    ensures too_early { transport_cases.TooEarly }
    ensures no_room { transport_cases.NoRoom }
    ensures broadcast { transport_cases.Broadcast }
    ensures cut_off { transport_cases.CutOff }
    ensures granted_once { transport_cases.GrantedOnce }
{}

/// What datagrams from the network give.
pub fn datagrams_are_heard()
    ensures second_of_three { net_cases.SecondOfThree }
    ensures no_header { net_cases.NoHeader }
    ensures moved { net_cases.Moved }
    ensures half_a_group { net_cases.HalfAGroup }
    ensures not_heard { net_cases.NotHeard }
    ensures early_after_move { net_cases.EarlyAfterMove }
    ensures no_room { net_cases.NoRoom }
    ensures rmc_without_dbt { net_cases.RmcWithoutDbt }
    ensures dbt_without_rmc { net_cases.DbtWithoutRmc }
{}

/// A device's messages, with and without another device between them.
pub fn devices_are_apart()
    ensures same_alone { isolation_cases.SameAlone }
    ensures one_done { isolation_cases.OneDone }
    ensures unheard { isolation_cases.Unheard }
    ensures not_refused { isolation_cases.NotRefused }
{}

/// Which source of the network is sent on.
pub fn sources_of_the_network_are_chosen()
    ensures first_listed { net_choice_cases.FirstListed }
    ensures heard_while_silent { net_choice_cases.HeardWhileSilent }
    ensures heard_before_ready { net_choice_cases.HeardBeforeReady }
    ensures nothing_to_say { net_choice_cases.NothingToSay }
    ensures same_datagram { net_choice_cases.SameDatagram }
{}

/// What lines of groups hand over.
pub fn lines_are_joined()
    ensures nine_lines { group_cases.NineLines }
    ensures alone_in_its_group { group_cases.AloneInItsGroup }
    ensures another_total { group_cases.AnotherTotal }
    ensures sources_apart { group_cases.SourcesApart }
    ensures first_again { group_cases.FirstAgain }
{}

/// How lines, groups of lines and fast packets are counted.
pub fn what_goes_out_is_counted()
    ensures each_group_its_lines { counter_cases.EachGroupItsLines }
    ensures each_message_its_sequence { counter_cases.EachMessageItsSequence }
{}

/// Whose messages are said where the list of sources doesn't decide.
pub fn names_decide()
    ensures by_smaller_name { rank_cases.BySmallerName }
    ensures not_listed { rank_cases.NotListed }
    ensures others_by_name { rank_cases.OthersByName }
{}

/// What is said where no row is taken from some devices, and what these are answered all the same.
pub fn devices_are_ignored()
    ensures by_one_field { rank_cases.IgnoredByOneField }
    ensures though_listed { rank_cases.IgnoredThoughListed }
    ensures all { rank_cases.AllIgnored }
{}

/// How many packets a sender may send before it waits, and for how long.
pub fn windows_are_granted()
    ensures each_window { window_cases.EachWindow }
    ensures within_a_window { window_cases.WithinAWindow }
{}

/// Which rules end a session of the transport protocol.
pub fn sessions_break_off()
    ensures out_of_order { session_cases.OutOfOrder }
    ensures short_and_out_of_order { session_cases.ShortAndOutOfOrder }
    ensures given_up { session_cases.GivenUp }
    ensures begun_too_early { session_cases.BegunTooEarly }
    ensures begun_again { session_cases.BegunAgain }
{}

/// What is for the gateway, and when it is ready, while its own address changes.
pub fn the_own_address_moves()
    ensures commanded_away { own_cases.CommandedAway }
    ensures there_and_back { own_cases.ThereAndBack }
    ensures by_way_of_none { own_cases.ByWayOfNone }
    ensures asked_after_a_move { own_cases.AskedAfterAMove }
    ensures asked_without_address { own_cases.AskedWithoutAddress }
    ensures ready_after_a_command { own_cases.ReadyAfterACommand }
    ensures defended_ready { own_cases.DefendedReady }
    ensures own_name_elsewhere { own_cases.OwnNameElsewhere }
    ensures malformed { own_cases.Malformed }
{}

/// How messages end that don't complete.
pub fn messages_end()
    ensures all_at_once { ending_cases.AllAtOnce }
    ensures left_before_won { ending_cases.LeftBeforeWon }
    ensures taken_at_once { ending_cases.TakenAtOnce }
    ensures again_at_the_limit { ending_cases.AgainAtTheLimit }
{}

/// Which rules lines of datagrams break.
pub fn lines_break_rules()
    ensures bad_lines { line_cases.BadLines }
    ensures bad_fields { line_cases.BadFields }
    ensures own_line_elsewhere { line_cases.OwnLineElsewhere }
    ensures one_line_too_many { line_cases.OneLineTooMany }
{}

/// What one word of the definition decides.
pub fn single_words_decide()
    ensures command_for_another { deciding_cases.CommandForAnother }
    ensures long_command { deciding_cases.LongCommand }
    ensures command_behind_its_event { deciding_cases.CommandBehindItsEvent }
    ensures request_to_another { deciding_cases.RequestToAnother }
    ensures claim_of_all { deciding_cases.ClaimOfAll }
    ensures new_holder { deciding_cases.NewHolder }
    ensures cut_opener { deciding_cases.CutOpener }
    ensures short_while_open { deciding_cases.ShortWhileOpen }
    ensures unsent_uncounted { deciding_cases.UnsentUncounted }
    ensures given_up_behind { deciding_cases.GivenUpBehind }
    ensures session_again_at_the_limit { deciding_cases.SessionAgainAtTheLimit }
    ensures fast_packets_end_first { deciding_cases.FastPacketsEndFirst }
    ensures left_once { deciding_cases.LeftOnce }
    ensures group_again_at_the_limit { deciding_cases.GroupAgainAtTheLimit }
{}
