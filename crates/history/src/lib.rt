//! What the gateway emits, as a definition over everything that ever came.
#![tactic(auto)]

mod cases;
mod laws;

pub use cases::{
    addresses_change_hands, datagrams_are_heard, devices_are_apart, fast_packets_are_joined,
    lines_are_joined, lines_break_rules, messages_are_said, messages_end, names_decide,
    sessions_are_answered, sessions_break_off, single_words_decide, sources_are_chosen,
    sources_of_the_network_are_chosen, the_own_address_moves, what_goes_out_is_counted,
    windows_are_granted,
};
pub use laws::{
    addresses_are_sound, addresses_keep_their_frames, choice_is_by_address, devices_are_isolated,
    devices_are_isolated_in_two, entries_fit, entries_say_one, fast_frames_step_their_key,
    fast_refusals_break, frames_are_noted, freshness_is_kept, gateways_receive,
    group_lines_step_their_group, items_give_in_order, open_keys_keep_the_limits,
    refusals_are_reported, slots_count_open_keys, slots_list_open_keys, steps_keep_history,
    tables_say_the_refusals, transport_frames_step_their_session, transport_refusals_break,
    what_is_too_long_is_told,
};
pub use sentence_profile::OptionalSentences;
