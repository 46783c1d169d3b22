//! The gateway's answers to who asks on the bus who it is.
ghost use Rattle.std.specs.Prelude.{◌≡◌, ◌≤◌, false, length, map, IfOk};
ghost use Rattle.std.specs.List.{AllByRecursion};
ghost use Rattle.n2k_id.specs.Frame.{IsFrame, bus_frame};
ghost use Rattle.gate_events.specs.Emit.{can};
ghost use Rattle.claim_table.specs.Claims.{is_ready};
ghost use Rattle.bus_identity.specs.Answers.{kept_after};
ghost use Rattle.bus_identity.specs.Payloads.{information_of};
ghost use Rattle.gate_outbox.specs.Output.{and_told};
ghost use Rattle.bus_answers.specs.Answered.{answer_by};
ghost use Rattle.bus_answers.specs.AnsweringPart.{answering_asked, answering_gives, answering_stands, most_answered, unanswered};

use bus_identity::{Answered, Frames, Identity, Product};
use gate_events::Event;
use gate_outbox::Emits;
use gate_outbox::reports::of_source;
use n2k_id::pgn::REQUEST;
use n2k_id::{Frame, parts};
use parts::{Gateway, Given, Part, Step};
use report_rules::NOT_READY;
use settings::Setup;
use std::alloc::{AllocError, Global};

/// The most frames of an answer.
const MOST_ANSWERED: usize = 20;

/// The place for the frames of an answer.
pub type AnswersPlace = Given<MOST_ANSWERED>;

/// The answer to an event: the frames of a message, or the report of a request that came before the gateway was ready.
type Answer = Emits<MOST_ANSWERED>;

/// Who the gateway is.
#[derive(Drop)]
pub struct Answering {
    identity: Identity,
    /// The frames of the last answer.
    frames: Frames,
}

impl Answering {
    /// Of this product, with nothing answered yet.
    fn new(product: &Product) -> Answering
        ensures { result.identity ≡ unanswered (information_of product.now) }
    {
        Answering {
            identity: Identity::new(product),
            frames: Frames::new(),
        }
    }

    /// Answers a frame that the gateway has taken. Says whether there may be an answer.
    fn answer_frame(&mut self, gateway: &Gateway, frame: &Frame, out: &mut Answer) -> bool
        requires { IsFrame frame.now }
        ensures kept { self.new.identity ≡ kept_after self.old.identity gateway.now.addresses.claims.own
            (is_ready gateway.now.addresses.claims gateway.now.moment) (bus_frame frame.now) }
        ensures told { out.new ≡ and_told most_answered out.old (answer_by self.old.identity gateway.now.addresses.claims.own
            (is_ready gateway.now.addresses.claims gateway.now.moment) (bus_frame frame.now)) }
        ensures few { length (answer_by self.old.identity gateway.now.addresses.claims.own
            (is_ready gateway.now.addresses.claims gateway.now.moment) (bus_frame frame.now)) ≤ most_answered }
        ensures gave { result ≡ false → out.new ≡ out.old }
    {
        self.frames.clear();
        let answered = self
            .identity
            .answer(gateway.own(), gateway.ready(), frame, &mut self.frames);
        match answered {
            Answered::Nothing => false,
            Answered::Sent => {
                send_all(&self.frames, out);
                true
            }
            Answered::NotReady => {
                out.tell(of_source(NOT_READY, parts(frame.id).unwrap().source, REQUEST));
                true
            }
        }
    }
}

impl Part<AnswersPlace> for Answering {
    ghost use Rattle.parts.specs.Utterances.{streamless};
    ghost use Rattle.std.specs.Prelude.{ℕ, List};

    ghost Rule = { List ℕ };

    ghost asked = { answering_asked };

    ghost stands = { answering_stands };

    ghost gives = { answering_gives };

    ghost utters = { streamless answering_gives };

    fn opened(_alloc: Global, setup: &Setup) -> Result<Option<Answering>, AllocError> {
        Ok(Some(Answering::new(&setup.settings.product)))
    }

    #[tactic(auto, using(parts::proofs::Empty::none_emitted, std::proofs::lemmas::List::nil_from_length))]
    fn after(&mut self, step: &Step<'_>, place: &mut AnswersPlace) -> bool {
        match step.event {
            Event::Frame { frame, .. } => {
                self.answer_frame(step.gateway, frame, &mut place.emits)
            }
            _ => false,
        }
    }
}

fn send_all(frames: &[Frame], out: &mut Answer)
    requires { AllByRecursion IsFrame frames.now }
    ensures { out.new ≡ and_told most_answered out.old (map can (map bus_frame frames.now)) }
{
    for frame in frames {
        out.send(*frame);
    }
}
