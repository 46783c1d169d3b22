//! Addresses that change hands (ISO 11783-5): by a claim, and by a command to the gateway.
ghost use Rattle.std.specs.Prelude.{true, [], ◌∷◌, ◌++◌, ◌≡◌, ◌+◌, ◌<◌, ◌&&◌, ◌==◌, not, nat_le, length, is_some, IfSome};
ghost use Rattle.n2k_id.specs.Frame.{IsFrame, bus_frame, held_bytes};
ghost use Rattle.n2k_id.specs.Identifier.{parts_of};
ghost use Rattle.n2k_id.specs.Name.{name_at};
ghost use Rattle.claim_table.specs.Claims.{claim, claim_of, places};
ghost use Rattle.history.specs.Emits.{own_claim};
ghost use Rattle.history.specs.FromBus.{own_answer};
ghost use Rattle.history.specs.Known.{address_won, is_claim};
ghost use Rattle.n2k_id.specs.Pgns as pgns;
ghost use Rattle.history.specs.TraceLaws.{same_own};
ghost use Rattle.gate_model.specs.Addresses.{changed_by, claimed};
ghost use Rattle.gate_model.specs.Said as said;
ghost use Rattle.gate_model.specs.Sessions.{without_addressed, lost_addressed};
ghost use Rattle.gate_model.specs.MachineSteps.{claim_frame, claim_takes, command_here, lost_at, without};
ghost use Rattle.gate_core.specs.Changes.{changed_of};
ghost use Rattle.gate_core.specs.Steps.{Stays, by_keys};
ghost use Rattle.gate_outbox.specs.Output.{and_told, most_told};

use crate::addresses::Changed;
use crate::state::State;
use bus_messages::endings::{drop_addressed, drop_source};
use bus_messages::meanings::tell_claim;
use claim_table::{ClaimStep, OwnAnswer};
use gate_outbox::frames::own_claim;
use gate_outbox::reports::of_source;
use gate_outbox::{Command, StepEmits};
use n2k_id::address::ALL;
use n2k_id::pgn::{ADDRESS_CLAIMED, COMMANDED_ADDRESS};
use n2k_id::{Frame, Name, Parts, read_name};
use report_rules::COMMAND_NOT_OBEYED;

impl State {
    /// Takes a frame that claims an address, or none (254), by a NAME, and answers which addresses change hands by it.
    #[tactic(auto, using(gate_outbox::proofs::Telling::told_more))]
    pub(crate) fn claim_frame(
        &mut self,
        name: Name,
        parts: &Parts,
        frame: &Frame,
        moment: u64,
        out: &mut StepEmits,
    ) -> Changed
        requires valid { IsFrame frame.now }
        requires parts { parts.now ≡ parts_of frame.now.id }
        requires claims { is_claim (bus_frame frame.now) ≡ true }
        requires name { name.0 ≡ name_at (held_bytes frame.now) }
        requires address { parts.now.source < 255 }
        requires stays { Stays self.old }
        ensures after { self.new ≡ (claim_frame by_keys self.old moment (bus_frame frame.now)).after }
        ensures emits { out.new ≡ and_told most_told out.old (claim_frame by_keys self.old moment (bus_frame frame.now)).told }
        ensures changed { changed_of result ≡ changed_by (claimed self.old.addresses moment (bus_frame frame.now)).step }
    {
        tell_claim(self.name(), parts, frame.held(), out);
        self.claim(parts.source, name, moment, out)
    }

    /// Takes a claim of an address, or of none, by a NAME.
    #[tactic(auto, using(gate_outbox::proofs::Telling::told_more), unfolding(gate_model::specs::MachineSteps::claim_tells))]
    fn claim(&mut self, address: u8, name: Name, moment: u64, out: &mut StepEmits) -> Changed
        requires address { address < 255 }
        requires stays { Stays self.old }
        ensures after { self.new ≡ (claim_takes self.old.settings.name self.old
            (claim self.old.addresses.claims (claim_of address name.0 self.old.addresses.count moment))).after }
        ensures emits { out.new ≡ and_told most_told out.old (claim_takes self.old.settings.name self.old
            (claim self.old.addresses.claims (claim_of address name.0 self.old.addresses.count moment))).told }
        ensures changed { changed_of result
            ≡ changed_by (claim self.old.addresses.claims (claim_of address name.0 self.old.addresses.count moment)).step }
    {
        let before = self.own();
        let step = self.note_claim(address, name, moment);
        let after = self.own();
        let changed = Changed {
            left: step.released,
            won: address_won(&step),
        };
        self.lose(changed.left, out);
        self.lose(changed.won, out);
        self.lose_addressed(!is_same(before, after), out);
        self.forget(changed.left);
        self.forget(changed.won);
        answer(self.name(), step.own, after, out);
        changed
    }

    /// Notes a claim among the addresses.
    fn note_claim(&mut self, address: u8, name: Name, moment: u64) -> ClaimStep
        requires address { address < 255 }
        requires stays { Stays self.old }
        ensures after { self.new ≡ record self.old {
          addresses = record self.old.addresses {
            claims =
                (claim self.old.addresses.claims (claim_of address name.0 self.old.addresses.count moment)).after;
          };
        } }
        ensures step { result ≡ (claim self.old.addresses.claims (claim_of address name.0 self.old.addresses.count moment)).step }
        ensures left { IfSome result.released (λ a. a < places) }
        ensures won { IfSome (address_won result) (λ a. a < places) }
    {
        self.addresses.claim(address, name, moment)
    }

    /// Drops what is in the making of an address that changes hands.
    fn lose(&mut self, source: Option<u8>, out: &mut StepEmits)
        ensures after { self.new ≡ without source self.old }
        ensures emits { out.new ≡ and_told most_told out.old (lost_at source self.old) }
    {
        match source {
            Some(source) => drop_source(&mut self.fast, &mut self.sessions, source, out),
            None => {}
        }
    }

    /// Drops the sessions to the gateway, where its own address is another one.
    fn lose_addressed(&mut self, moved: bool, out: &mut StepEmits)
        ensures after { self.new ≡ record self.old { sessions = without_addressed moved self.old.sessions } }
        ensures emits { out.new ≡ and_told most_told out.old (lost_addressed moved self.old.sessions) }
    {
        if moved {
            drop_addressed(&mut self.sessions, out);
        }
    }

    /// Nothing is noted any more of an address that changes hands.
    fn forget(&mut self, source: Option<u8>)
        requires { IfSome source (λ a. a < places) }
        ensures { self.new ≡ record self.old { said = said.without_source source self.old.said } }
    {
        match source {
            Some(source) => self.said.forget(source),
            None => {}
        }
    }

    /// Claims the address to which the gateway was told to go; the sessions to it end.
    fn claim_anew(&mut self, out: &mut StepEmits)
        ensures after { self.new ≡ record self.old { sessions = without_addressed true self.old.sessions } }
        ensures emits { out.new ≡ and_told most_told out.old
            (lost_addressed true self.old.sessions ++ own_claim self.old.settings.name self.old.addresses.claims.own ∷ []) }
    {
        self.lose_addressed(true, out);
        send_claim(self.name(), self.own(), out);
    }

    /// Takes a command to go to an address, which is obeyed or reported.
    pub(crate) fn command(&mut self, command: Command, moment: u64, out: &mut StepEmits)
        ensures after { self.new ≡ (command_here self.old moment command.source command.address).after }
        ensures emits { out.new ≡ and_told most_told out.old (command_here self.old moment command.source command.address).told }
    {
        let obeyed = self.addresses.command(command.address, moment);
        if obeyed {
            self.claim_anew(out);
        } else {
            out.tell(of_source(COMMAND_NOT_OBEYED, command.source, COMMANDED_ADDRESS));
        }
    }
}

/// The NAME that claims an address, or none (ISO 11783-5).
pub(crate) fn claimed_name(parts: &Parts, bytes: &[u8]) -> Option<Name>
    ensures some { is_some result
        ≡ ((parts.now.pgn == pgns.address_claimed) && (nat_le 8 (length bytes.now) && not (parts.now.source == 255))) }
    ensures name { IfSome result (λ name. name.0 ≡ name_at bytes.now) }
    ensures within { IfSome result (λ name. parts.now.source < 255) }
{
    if parts.pgn == ADDRESS_CLAIMED && parts.source != ALL {
        read_name(bytes)
    } else {
        None
    }
}

/// Whether the gateway has the same address before and after.
fn is_same(before: Option<u8>, after: Option<u8>) -> bool
    ensures { result ≡ same_own before after }
{
    match (before, after) {
        (Some(before), Some(after)) => before == after,
        (None, None) => true,
        _ => false,
    }
}

/// The address that was won from another NAME.
fn address_won(step: &ClaimStep) -> Option<u8>
    ensures { result ≡ address_won step.now }
{
    match step.lost {
        Some((address, _)) => Some(address),
        None => None,
    }
}

/// Says what the gateway does about its own address.
fn answer(name: Name, answer: OwnAnswer, own: Option<u8>, out: &mut StepEmits)
    ensures emits { out.new ≡ and_told most_told out.old (own_answer name.0 answer own) }
{
    match answer {
        OwnAnswer::Defend | OwnAnswer::Move(_) | OwnAnswer::CannotClaim => {
            send_claim(name, own, out);
        }
        OwnAnswer::Silent | OwnAnswer::Duplicate => {}
    }
}

/// Sends the claim of the own address.
pub(crate) fn send_claim(name: Name, own: Option<u8>, out: &mut StepEmits)
    ensures { out.new ≡ and_told most_told out.old (own_claim name.0 own ∷ []) }
{
    out.send(own_claim(name, own));
}
