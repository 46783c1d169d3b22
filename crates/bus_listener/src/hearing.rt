//! Addresses that change hands, and a frame that is heard.
ghost use Rattle.std.specs.Prelude.{◌≡◌, option_map};
ghost use Rattle.std.specs.Borrow.{sem};
ghost use Rattle.n2k_id.specs.Frame.{IsFrame, held_bytes};
ghost use Rattle.bus_messages.specs.Heard.{lent_payload};
ghost use Rattle.gate_core.specs.Steps.{IsEventValid, by_keys, entry_of};
ghost use Rattle.gate_model.specs.FastPackets.{lost_of_source, without_source};
ghost use Rattle.gate_outbox.specs.Output.{and_told};
ghost use Rattle.bus_listener.specs.Lent.{ends_with, heard_message};
ghost use Rattle.bus_listener.specs.Kept.{complete_from, entered, given_up, heard, lost, taken_as, unclaimed_told};
ghost use Rattle.bus_listener.specs.Promises.{step_by};

use crate::kinds::{Kinds, is_message, is_told};
use crate::listener::BusListener;
use crate::message::HeardMessage;
use bus_messages::fast;
use fast_packet::FastAssembler;
use gate_core::{Gateway, moment_of};
use gate_events::Event;
use gate_outbox::Emits;
use gate_outbox::reports::of_source;
use n2k_id::address::is_own;
use n2k_id::{Frame, Name, Parts, parts};
use pgn_profile::Kind;
use report_rules::UNCLAIMED;

impl BusListener {
    /// Takes an event: what is overdue at its moment ends before anything else.
    #[inline(always)]
    #[tactic(auto, using(gate_outbox::proofs::Telling::told_more))]
    pub(crate) fn step<'a, K: Kinds, const ROOM: usize>(
        &'a mut self,
        gateway: &Gateway,
        event: &'a Event<'_>,
        kinds: &K,
        emits: &mut Emits<ROOM>,
    ) -> Option<HeardMessage<'a>>
        requires valid { IsEventValid event.now }
        ensures* after { sem 𝓛 (ends_with self.entry (step_by (K.kinds kinds.now) gateway.now self.old (entry_of event.now)).slots) }
        ensures emits { emits.new ≡ and_told ROOM emits.old (step_by (K.kinds kinds.now) gateway.now self.old (entry_of event.now)).told }
        ensures message { heard_message result ≡ (step_by (K.kinds kinds.now) gateway.now self.old (entry_of event.now)).message }
    {
        fast::end_overdue(&mut self.slots, moment_of(event), emits);
        self.enter(gateway, event, kinds, emits)
    }

    /// Takes an event when nothing is overdue: by a frame addresses may have changed hands, and it may be one that is heard.
    #[inline(always)]
    #[tactic(auto, using(gate_outbox::proofs::Telling::told_more), unfolding(crate::specs::Kept::entered))]
    fn enter<'a, K: Kinds, const ROOM: usize>(
        &'a mut self,
        gateway: &Gateway,
        event: &'a Event<'_>,
        kinds: &K,
        emits: &mut Emits<ROOM>,
    ) -> Option<HeardMessage<'a>>
        requires valid { IsEventValid event.now }
        ensures* after { sem 𝓛 (ends_with self.entry (entered by_keys.fast (K.kinds kinds.now) gateway.now.addresses self.old (entry_of event.now)).slots) }
        ensures emits { emits.new
            ≡ and_told ROOM emits.old (entered by_keys.fast (K.kinds kinds.now) gateway.now.addresses self.old (entry_of event.now)).told }
        ensures message { heard_message result
            ≡ (entered by_keys.fast (K.kinds kinds.now) gateway.now.addresses self.old (entry_of event.now)).message }
    {
        match event {
            Event::Frame { moment, frame } => {
                self.give_up(gateway, emits);
                self.hear(
                    gateway,
                    &parts(frame.id).unwrap(),
                    *moment,
                    frame,
                    kinds,
                    emits,
                )
            }
            Event::Datagram { .. } | Event::Tick { .. } => None,
        }
    }

    /// Ends what is open of the address that was left, and of the one that was won.
    #[inline(always)]
    #[tactic(auto, using(gate_outbox::proofs::Telling::told_more))]
    pub(crate) fn give_up<const ROOM: usize>(&mut self, gateway: &Gateway, emits: &mut Emits<ROOM>)
        ensures after { self.new ≡ given_up gateway.now.addresses.changed self.old }
        ensures emits { emits.new ≡ and_told ROOM emits.old (lost gateway.now.addresses.changed self.old) }
    {
        drop_lost(&mut self.slots, gateway.left(), emits);
        drop_lost(&mut self.slots, gateway.won(), emits);
    }

    /// Hears a frame of a message that isn't from the gateway itself, where somebody holds the address that it is from.
    fn hear<'a, K: Kinds, const ROOM: usize>(
        &'a mut self,
        gateway: &Gateway,
        parts: &Parts,
        moment: u64,
        frame: &'a Frame,
        kinds: &K,
        emits: &mut Emits<ROOM>,
    ) -> Option<HeardMessage<'a>>
        requires valid { IsFrame frame.now }
        ensures* after { sem 𝓛 (ends_with self.entry
            (heard by_keys.fast (K.kinds kinds.now) gateway.now.addresses self.old parts.now (held_bytes frame.now) moment).slots) }
        ensures emits { emits.new ≡ and_told ROOM emits.old
            (heard by_keys.fast (K.kinds kinds.now) gateway.now.addresses self.old parts.now (held_bytes frame.now) moment).told }
        ensures message { heard_message result
            ≡ (heard by_keys.fast (K.kinds kinds.now) gateway.now.addresses self.old parts.now (held_bytes frame.now) moment).message }
    {
        let kind = kinds.kind(parts.pgn);
        if !is_message(kind) || is_own(gateway.own(), parts.source) {
            return None;
        }
        match gateway.holder(parts.source) {
            Some(name) => self.take(name, kind, parts, moment, frame, emits),
            None => {
                tell_unclaimed(parts, emits);
                None
            }
        }
    }

    /// Takes a frame of a message that comes so, from an address that this NAME holds.
    ///
    /// Each listener has a copy of it, and of `drop_lost`: most frames of its messages go this way.
    #[inline(always)]
    fn take<'a, const ROOM: usize>(
        &'a mut self,
        name: Name,
        kind: Kind,
        parts: &Parts,
        moment: u64,
        frame: &'a Frame,
        emits: &mut Emits<ROOM>,
    ) -> Option<HeardMessage<'a>>
        requires valid { IsFrame frame.now }
        ensures* after { sem 𝓛 (ends_with self.entry (taken_as by_keys.fast self.old parts.now (held_bytes frame.now) moment kind name).slots) }
        ensures emits { emits.new
            ≡ and_told ROOM emits.old (taken_as by_keys.fast self.old parts.now (held_bytes frame.now) moment kind name).told }
        ensures message { heard_message result ≡ (taken_as by_keys.fast self.old parts.now (held_bytes frame.now) moment kind name).message }
    {
        match kind {
            Kind::Single => message_from(moment, parts, name, Some(frame.held())),
            Kind::Fast => {
                // A copy, so that of the many frames that aren't heard nothing is put into memory.
                let heard = *parts;
                let payload = fast::hear(&mut self.slots, &heard, frame, moment, emits);
                message_from(moment, parts, name, payload)
            }
            Kind::Outside => None,
        }
    }
}

/// The message of a sender whose payload is lent, where one is.
fn message_from<'a>(
    moment: u64,
    parts: &Parts,
    name: Name,
    payload: Option<&'a [u8]>,
) -> Option<HeardMessage<'a>>
    ensures { heard_message result ≡ option_map (complete_from moment parts.now name) (lent_payload payload.entry) }
{
    match payload {
        Some(payload) => Some(HeardMessage {
            moment,
            source: parts.source,
            name,
            pgn: parts.pgn,
            payload,
        }),
        None => None,
    }
}

/// Reports a frame from an address that nobody holds, where the gateway doesn't.
fn tell_unclaimed<const ROOM: usize>(parts: &Parts, emits: &mut Emits<ROOM>)
    ensures { emits.new ≡ and_told ROOM emits.old (unclaimed_told parts.now) }
{
    if is_told(parts.pgn) {
        emits.tell(of_source(UNCLAIMED, parts.source, parts.pgn));
    }
}

/// Drops what is open of an address that changes hands.
#[inline(always)]
fn drop_lost<const ROOM: usize>(
    slots: &mut FastAssembler,
    source: Option<u8>,
    emits: &mut Emits<ROOM>,
)
    ensures slots { slots.new ≡ without_source source slots.old }
    ensures emits { emits.new ≡ and_told ROOM emits.old (lost_of_source source slots.old) }
{
    if let Some(source) = source {
        fast::drop_source(slots, source, emits);
    }
}
