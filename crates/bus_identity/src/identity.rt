ghost use Rattle.std.specs.Prelude.{◌≡◌, ◌+◌, ◌%◌, ◌≤◌, ◌↔◌, [], false, true, IsSome, IsTrue, length, map};
ghost use Rattle.std.specs.List.{AllByRecursion};
ghost use Rattle.n2k_id.specs.Frame.{IsFrame, bus_frame};
ghost use Rattle.bus_identity.specs.Answers as answers;
ghost use Rattle.bus_identity.specs.Payloads as payloads;
ghost use Rattle.n2k_id.specs.Pgns.{asked_of};
ghost use Rattle.bus_identity.specs.Requests.{IsDue};

use crate::lists::{received_list, sent_list};
use crate::pgn;
use crate::product::{Payload, Product, information_of};
use crate::request::{asked_of, is_due};
use crate::sending::{Frames, answer_identifier, answered_address, append_frame, append_message};
use n2k_id::address::ALL;
use n2k_id::pgn::ACKNOWLEDGEMENT;
use n2k_id::{Frame, parts};
use std::marker::Model;

/// What became of a frame.
#[derive(Clone, Copy)]
pub enum Answered {
    /// It is no request that has to be answered.
    Nothing,
    /// It is one, and the answer goes out.
    Sent,
    /// It is one, and the gateway isn't ready to answer, which is to be reported.
    NotReady,
}

/// Who the gateway is, and how many messages it sent to say so.
#[derive(Drop)]
pub struct Identity {
    /// The payload of product information.
    information: Payload,
    /// How many messages of product information were sent, modulo 8: the sequence of the next one.
    products: u8,
    /// How many lists were sent, modulo 8.
    lists: u8,
}

impl Model for Identity {
    ghost use Rattle.std.specs.Prelude.{◌≡◌, ◌<◌, length};
    ghost use Rattle.bus_identity.specs.Answers.{Kept};

    ghost Value = { Kept };

    ghost view = { λ i. record { information = i.information.items; products = i.products; lists = i.lists } };

    ghost invariant = { λ i. (length i.information.items ≡ 134) × (i.products < 8) × (i.lists < 8) };
}

/// What becomes of a frame that has to be answered or not.
fn answered_by(due: bool, ready: bool) -> Answered
    ensures { result ≡ answers.answered_by due ready }
{
    if !due {
        Answered::Nothing
    } else if ready {
        Answered::Sent
    } else {
        Answered::NotReady
    }
}

impl Identity {
    /// The gateway that is this product, and has sent nothing yet.
    pub fn new(product: &Product) -> Identity
        ensures { result ≡ record { information = payloads.information_of product.now; products = 0; lists = 0 } }
    {
        Identity {
            information: information_of(product),
            products: 0,
            lists: 0,
        }
    }

    /// Answers a frame that came from the bus, where it is a request that has to be answered and the gateway is ready: the frames to
    /// be sent are left in `out`, which is empty before. `own` is the gateway's address, which it has where it is ready.
    ///
    /// A request (ISO 11783-3, PGN 59904) has to be answered where it is to all or to the gateway, from another device, and asks for
    /// product information, for the lists of parameter groups, or, to the gateway alone, for anything but its claim.
    pub fn answer(
        &mut self,
        own: Option<u8>,
        ready: bool,
        frame: &Frame,
        out: &mut Frames,
    ) -> Answered
        requires empty { out.old.items ≡ [] }
        requires valid { IsFrame frame.now }
        requires address { IsTrue ready → IsSome own }

        // Each answer exactly where it is the frame's.
        ensures nothing { (result ≡ Answered.Nothing) ↔ (¬ IsDue own (bus_frame frame.now)) }
        ensures sent { (result ≡ Answered.Sent) ↔ (IsDue own (bus_frame frame.now) × IsTrue ready) }
        ensures not_ready { (result ≡ Answered.NotReady) ↔ (IsDue own (bus_frame frame.now) × (ready ≡ false)) }

        // What goes out, and what is kept.
        ensures answer { result ≡ answers.answered own ready (bus_frame frame.now) }
        ensures frames { map bus_frame out.new.items ≡ answers.answer_frames self.old own ready (bus_frame frame.now) }
        ensures valid { AllByRecursion IsFrame out.new.items }
        ensures after { self.new ≡ answers.kept_after self.old own ready (bus_frame frame.now) }
    {
        let parts = parts(frame.id).unwrap();
        let held = frame.held();
        let answered = answered_by(is_due(own, &parts, held), ready);
        if let Answered::Sent = answered
            && let Some(own) = own
        {
            self.send(own, answered_address(parts.source), held, out);
        }
        answered
    }

    /// Appends the answer to who asked in these bytes, and counts it.
    fn send(&mut self, own: u8, asker: u8, held: &[u8], out: &mut Frames)
        requires empty { out.old.items ≡ [] }
        requires asks { 3 ≤ length held.now }
        ensures frames { map bus_frame out.new.items ≡ answers.frames_to self.old own asker held.now }
        ensures valid { AllByRecursion IsFrame out.new.items }
        ensures after { self.new ≡ answers.counted self.old (asked_of held.now) }
    {
        match asked_of(held) {
            pgn::PRODUCT_INFORMATION => self.send_information(own, out),
            pgn::PGN_LISTS => self.send_lists(own, asker, out),
            _ => refuse(own, asker, &[held[0], held[1], held[2]], out),
        }
    }

    #[tactic(auto, using(crate::proofs::FrameLemmas::information_fits))]
    fn send_information(&mut self, own: u8, out: &mut Frames)
        requires empty { out.old.items ≡ [] }
        ensures frames { map bus_frame out.new.items ≡ answers.product_frames self.old own }
        ensures valid { AllByRecursion IsFrame out.new.items }
        ensures after { self.new ≡ record self.old { products = (self.old.products + 1) % 8 } }
    {
        let id = answer_identifier(pgn::PRODUCT_INFORMATION, ALL, own);
        append_message(id, self.products, &self.information, out);
        self.products = (self.products + 1) % 8;
    }

    #[tactic(auto, using(crate::proofs::FrameLemmas::sent_list_fits, crate::proofs::FrameLemmas::received_list_fits))]
    fn send_lists(&mut self, own: u8, asker: u8, out: &mut Frames)
        requires empty { out.old.items ≡ [] }
        ensures frames { map bus_frame out.new.items ≡ answers.list_frames self.old own asker }
        ensures valid { AllByRecursion IsFrame out.new.items }
        ensures after { self.new ≡ record self.old { lists = (self.old.lists + 2) % 8 } }
    {
        let id = answer_identifier(pgn::PGN_LISTS, asker, own);
        append_message(id, self.lists, &sent_list(), out);
        append_message(id, (self.lists + 1) % 8, &received_list(), out);
        self.lists = (self.lists + 2) % 8;
    }
}

/// Appends the acknowledgement that refuses what was asked for.
fn refuse(own: u8, asker: u8, asked: &[u8; 3], out: &mut Frames)
    requires empty { out.old.items ≡ [] }
    ensures frames { map bus_frame out.new.items ≡ answers.refusal_frames own asker asked.now }
    ensures valid { AllByRecursion IsFrame out.new.items }
{
    let id = answer_identifier(ACKNOWLEDGEMENT, asker, own);
    append_frame(
        id,
        &[1, 255, 255, 255, 255, asked[0], asked[1], asked[2]],
        out,
    );
}
