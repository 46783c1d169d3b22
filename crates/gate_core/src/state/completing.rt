//! A message that a frame completes: it is said where it is selected, and told with the command that it gives.
ghost use Rattle.std.specs.Prelude.{◌≡◌, ◌<◌, length, option_map, Some};
ghost use Rattle.pgn_profile.specs.Profiled.{GivesValid, profiled};
ghost use Rattle.claim_table.specs.Claims.{holder_at, places};
ghost use Rattle.config_values.specs.Configs.{IsConfig};
ghost use Rattle.config_values.specs.Settings.{settings_by};
ghost use Rattle.history.specs.Choice.{reading_in};
ghost use Rattle.gate_model.specs.Said.{complete_by, message_after, ordered_by};
ghost use Rattle.bus_messages.specs.Lent.{carried_in, lent_message};
ghost use Rattle.gate_core.specs.Completing.{and_complete, and_message, done_with, whole};
ghost use Rattle.gate_core.specs.Steps.{command_of, first_there};

use bus_messages::messages::{Message, ordered, read_message};
use claim_table::ClaimTable;
use config_values::SelectiveConfig;
use gate_outbox::{Command, Done, Outbox};
use pgn_profile::Profiled;
use readings::Reading;
use row_traffic::said::{Said, Sender};

/// Takes the message that a frame from this source completes, where it completes one.
pub(crate) fn complete(
    said: &mut Said,
    config: &SelectiveConfig,
    claims: &ClaimTable,
    source: u8,
    message: Option<Message<'_>>,
    moment: u64,
    out: &mut Outbox,
)
    requires config { IsConfig config.now.base }
    requires places { length claims.now.holders ≡ places }
    ensures after { said.new ≡ message_after (settings_by config.now) said.old
        (complete_by moment source (holder_at claims.now.holders source) (lent_message message.entry)) }
    ensures output { out.new ≡ and_message (settings_by config.now) said.old out.old source (lent_message message.entry)
        (complete_by moment source (holder_at claims.now.holders source) (lent_message message.entry)) }
{
    match message {
        Some(message) => take_message(said, config, claims, source, message, moment, out),
        None => {}
    }
}

/// Takes a message that is complete. It isn't part of its callers, so that a frame makes no room for what a message says that it
/// doesn't complete.
#[inline(never)]
pub(crate) fn take_message(
    said: &mut Said,
    config: &SelectiveConfig,
    claims: &ClaimTable,
    source: u8,
    message: Message<'_>,
    moment: u64,
    out: &mut Outbox,
)
    requires config { IsConfig config.now.base }
    requires places { length claims.now.holders ≡ places }
    ensures after { said.new ≡ message_after (settings_by config.now) said.old
        (complete_by moment source (holder_at claims.now.holders source) (Some (carried_in message.entry))) }
    ensures output { out.new ≡ and_message (settings_by config.now) said.old out.old source (Some (carried_in message.entry))
        (complete_by moment source (holder_at claims.now.holders source) (Some (carried_in message.entry))) }
{
    let says = read_message(source, message, &mut out.emits);
    match claims.holder(source) {
        Some(holder) => {
            let sender = Sender {
                moment,
                source,
                name: holder.name,
            };
            say(said, config, sender, message, &says, out);
        }
        None => {}
    }
}

/// Says what a message of a sender says, where it is selected, and tells of the message, whether it is selected, and of the command that it
/// gives.
#[tactic(auto, using(crate::proofs::Completing::same_after, crate::proofs::Completing::same_emits, crate::proofs::Completing::valid_reading))]
fn say(
    said: &mut Said,
    config: &SelectiveConfig,
    sender: Sender,
    message: Message<'_>,
    says: &Profiled,
    out: &mut Outbox,
)
    requires config { IsConfig config.now.base }
    requires source { sender.source < places }
    requires says { says.now ≡ profiled message.pgn message.payload.now }
    requires valid { GivesValid says.now }
    ensures after { said.new ≡ message_after (settings_by config.now) said.old (Some (whole sender (carried_in message.entry))) }
    ensures output { out.new ≡ and_complete (settings_by config.now) said.old out.old (Some (whole sender (carried_in message.entry))) }
{
    let selected = said.take(config, sender, says, &mut out.emits);
    tell(sender, message.pgn, says, selected, out);
    order(config, sender, message, out);
}

/// Tells of the command that a message gives.
#[tactic(auto, unfolding(config_values::specs::Settings::settings_ignoring))]
fn order(config: &SelectiveConfig, sender: Sender, message: Message<'_>, out: &mut Outbox)
    ensures { out.new ≡ record out.old {
      command = first_there (option_map command_of (ordered_by (settings_by config.now).name (Some (whole sender (carried_in message.entry))))) out.old.command;
    } }
{
    if let Some(address) = ordered(config.base.name, message) {
        out.order(Command {
            source: sender.source,
            address,
        });
    }
}

/// Tells of a message of the PGN, and whether it is selected.
fn tell(sender: Sender, pgn: u32, says: &Profiled, selected: bool, out: &mut Outbox)
    requires { GivesValid says.now }
    ensures { out.new ≡ record out.old { done = Some (done_with sender pgn (reading_in says.now)); selected = selected } }
{
    match says {
        Profiled::Reading(reading) => {
            out.complete(done_with(sender, pgn, Some(*reading)), selected);
        }
        Profiled::Outside | Profiled::Short => out.complete(done_with(sender, pgn, None), selected),
    }
}

/// A message of the PGN with its reading.
fn done_with(sender: Sender, pgn: u32, reading: Option<Reading>) -> Done
    ensures { result ≡ done_with sender pgn reading }
{
    Done {
        source: sender.source,
        name: sender.name,
        pgn,
        reading,
    }
}
