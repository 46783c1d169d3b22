//! A message that is complete, read while its payload is lent.
ghost use Rattle.std.specs.Prelude.{◌≡◌, option_map, Some};
ghost use Rattle.pgn_profile.specs.Profiled.{GivesValid, profiled};
ghost use Rattle.history.specs.BusRules.{is_short};
ghost use Rattle.history.specs.Emits.{reported};
ghost use Rattle.history.specs.Messages.{carried, is_for, ordered_in};
ghost use Rattle.gate_model.specs.Said.{short_reports};
ghost use Rattle.gate_outbox.specs.Output.{and_told, most_told};
ghost use Rattle.bus_messages.specs.Heard.{lent_payload};
ghost use Rattle.bus_messages.specs.Lent.{carried_in, lent_message};

use gate_outbox::StepEmits;
use gate_outbox::reports::of_source;
use n2k_id::pgn::COMMANDED_ADDRESS;
use n2k_id::{Name, read_name};
use pgn_profile::{Profiled, read};
use report_rules::SHORT_MESSAGE;

/// A message that is complete, while its payload is lent.
#[derive(Clone, Copy)]
pub struct Message<'a> {
    pub pgn: u32,
    pub payload: &'a [u8],
}

/// Where the address stands in a command: behind the NAME that it is for.
const ORDERED_AT: usize = 8;

/// The message of the PGN whose payload is lent, where one is.
pub fn message_of<'a>(pgn: u32, payload: Option<&'a [u8]>) -> Option<Message<'a>>
    ensures { lent_message result ≡ option_map (carried pgn) (lent_payload payload.entry) }
{
    match payload {
        Some(payload) => Some(Message { pgn, payload }),
        None => None,
    }
}

/// Reads a message from the source, and reports it where it has too few bytes for what its PGN says.
pub fn read_message(source: u8, message: Message<'_>, out: &mut StepEmits) -> Profiled
    ensures profiled { result ≡ profiled message.entry.pgn message.entry.payload.now }
    ensures emits { out.new ≡ and_told most_told out.old (reported (short_reports source (Some (carried_in message.entry)))) }
    ensures valid { GivesValid result }
{
    let profiled = read(message.pgn, message.payload);
    if is_short(&profiled) {
        out.tell(of_source(SHORT_MESSAGE, source, message.pgn));
    }
    profiled
}

/// Whether the payload has too few bytes for what its PGN says.
fn is_short(profiled: &Profiled) -> bool
    ensures { result ≡ is_short profiled.now }
{
    match profiled {
        Profiled::Short => true,
        Profiled::Reading(_) | Profiled::Outside => false,
    }
}

/// The address to which a message tells the gateway of this NAME to go (ISO 11783-5, commanded address).
pub fn ordered(name: Name, message: Message<'_>) -> Option<u8>
    ensures { result ≡ ordered_in name.0 message.entry.pgn message.entry.payload.now }
{
    if message.pgn == COMMANDED_ADDRESS && is_for(name, message.payload) {
        Some(message.payload[ORDERED_AT])
    } else {
        None
    }
}

/// Whether the first bytes are the NAME, and another byte follows.
fn is_for(name: Name, payload: &[u8]) -> bool
    ensures { result ≡ is_for name.0 payload.now }
{
    payload.len() > ORDERED_AT && read_name(payload) == Some(name)
}
