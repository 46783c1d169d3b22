//! The assembler.
ghost use Rattle.std.specs.Prelude.{◌≡◌, ◌≤◌, ◌<◌, [], IfOk, IsSomeAnd, length, option_map};
ghost use Rattle.std.specs.List.{find};
ghost use Rattle.std.specs.Borrow.{sem};
ghost use Rattle.n2k_id.specs.Frame.{IsFrame, held_bytes};
ghost use Rattle.slot_views.specs.Slots.{SlotMap, IsMap, grown, entry_at, is_full, without, released, begun_after, grown_after, has_expired};
ghost use Rattle.slot_views.specs.Places.{IsPlace};
ghost use Rattle.iso_transport.specs.Audience.{key_of};
ghost use Rattle.iso_transport.specs.IsoRuns.{gap_after};
ghost use Rattle.iso_transport.specs.Replies.{NamesPgn};
ghost use Rattle.iso_transport.specs.Verdicts.{VerdictFits, IsOpening, packet_verdict, pgn_in};
ghost use Rattle.iso_transport.specs.Assembly.{verdict_of, fed_by, fed_after, is_from, is_addressed, is_crowded, least_of, opening, part_to};

use crate::answers::{IsoEnded, IsoFed, IsoOutcome, IsoRefusal};
use crate::key::IsoKey;
use crate::session::Session;
use crate::verdict::{Verdict, management_verdict, packet_verdict};
use n2k_id::address::is_to;
use n2k_id::pgn::{CONNECTION_MANAGEMENT, DATA_TRANSFER};
use n2k_id::{Frame, Parts};
use slot_views::{Begun, Grown, Place, Slots};
use std::alloc::{AllocError, Global};
use std::marker::Model;

/// The longest message has 1785 bytes in 255 packets, each with room for 7; its opener has room for as many, and carries none.
const ROOM: usize = 1792;

/// How many bytes of the message a packet carries at most.
const PIECE: usize = 7;

/// Messages of several senders in the making (ISO 11783-3, transport protocol).
#[derive(Drop)]
pub struct IsoAssembler {
    slots: Slots<IsoKey, ROOM, PIECE>,
}

impl Model for IsoAssembler {
    ghost use Rattle.slot_views.specs.Slots.{SlotMap};
    ghost use Rattle.iso_transport.specs.declared.key.IsoKey.{IsoKey};

    ghost Value = { SlotMap IsoKey };

    ghost view = { λ s. s.slots };

    ghost use Rattle.iso_transport.specs.Assembly.{AreSessions};

    ghost invariant = { λ s. AreSessions ⟦<IsoKey as Ord>⟧.cmp s.slots };
}

impl IsoAssembler {
    ghost use Rattle.iso_transport.specs.Rows.{ends_as};
    ghost use Rattle.iso_transport.specs.Answers.{FeedGives, OutcomeBy, NextGives, ended_of};

    /// No session, with the memory for `limit` of them.
    pub fn new(alloc: Global, limit: u16) -> Result<Self, AllocError>
        ensures { IfOk result (λ s. s ≡ record { limit = limit; entries = [] }) }
    {
        let slots = Slots::new(alloc, limit)?;
        Ok(IsoAssembler { slots })
    }

    /// Takes a frame of the transport protocol: PGN 60416 or 60160, to any node. `own` is this node's address, where it has one.
    /// An RTS to this node is given only while the node may answer.
    ///
    /// `moment` is in microseconds. What is overdue at it has to be ended first (`expire_one`): this call looks at no gap.
    #[tactic(auto, using(crate::proofs::Verdicts::tells_small))]
    pub fn feed<'a>(
        &'a mut self,
        own: Option<u8>,
        parts: &Parts,
        frame: &Frame,
        moment: u64,
    ) -> IsoFed<'a>
        requires { IsFrame frame.now }
        ensures map { IsMap ⟦<IsoKey as Ord>⟧.cmp self.old }
        ensures* after { sem 𝓛 (ends_as self.entry (fed_after ⟦<IsoKey as Ord>⟧.cmp self.old own parts.now (held_bytes frame.now) moment)) }
        ensures answer { FeedGives ⟦<IsoKey as Ord>⟧.cmp self.old own parts.now (held_bytes frame.now) moment result }
        ensures reply { NamesPgn result.reply }
    {
        let bytes = frame.held();
        let place = self.slots.find(IsoKey::of(parts));
        let verdict = self.verdict(own, parts, place, bytes);
        let restarted = verdict.restarted();
        let reply = verdict.reply(place.key.addressed);
        let outcome = self.take(place, bytes, moment, verdict);
        IsoFed {
            restarted,
            reply,
            outcome,
        }
    }

    // Does what the frame of the key asks for.
    #[tactic(auto, using(crate::proofs::Sources::released_sessions))]
    fn take<'a>(
        &'a mut self,
        place: Place<IsoKey>,
        bytes: &[u8],
        moment: u64,
        verdict: Verdict,
    ) -> IsoOutcome<'a>
        requires place { IsPlace ⟦<IsoKey as Ord>⟧.cmp self.old place }
        requires fits { VerdictFits (is_full ⟦<IsoKey as Ord>⟧.cmp self.old place.key) (entry_at ⟦<IsoKey as Ord>⟧.cmp self.old place.key) bytes.now verdict }
        ensures* after { sem 𝓛 (ends_as self.entry (fed_by ⟦<IsoKey as Ord>⟧.cmp self.old place.key bytes.now moment verdict)) }
        ensures answer { OutcomeBy place.key.addressed (entry_at ⟦<IsoKey as Ord>⟧.cmp self.old place.key) bytes.now moment verdict result }
    {
        match verdict {
            Verdict::Ignored => IsoOutcome::Ignored,
            Verdict::Again => IsoOutcome::Repeat,
            Verdict::Refused(refusal, _) => IsoOutcome::Refused(refusal),
            Verdict::Ends(refusal, _) => {
                let _ = self.slots.give_up_at(place);
                IsoOutcome::Refused(refusal)
            }
            Verdict::Opens(session, _) => self.begin(place, session, moment),
            Verdict::Next(session, number, end) => {
                self.grow(place, session, number, part(bytes, end), moment)
            }
        }
    }

    // Opens the session, in the place of the one that is open.
    fn begin<'a>(
        &'a mut self,
        place: Place<IsoKey>,
        session: Session,
        moment: u64,
    ) -> IsoOutcome<'a>
        requires place { IsPlace ⟦<IsoKey as Ord>⟧.cmp self.old place }
        requires opening { IsOpening (is_full ⟦<IsoKey as Ord>⟧.cmp self.old place.key) session }
        ensures* after { sem 𝓛 (ends_as self.entry (begun_after ⟦<IsoKey as Ord>⟧.cmp self.old place.key (opening place.key.addressed session moment))) }
        ensures answer { result ≡ IsoOutcome.Held }
    {
        let need = session.packets() + 1;
        let gap = session.gap_after(place.key.addressed, 0);
        match self
            .slots
            .begin_at(place, &[], need, moment, gap, session.mark())
        {
            Begun::Held { .. } => IsoOutcome::Held,
            // can't be: there is room.
            Begun::Full => IsoOutcome::Refused(IsoRefusal::Full(session.pgn)),
            // can't be: the message has two packets or more.
            Begun::Complete { view, .. } => IsoOutcome::Complete {
                pgn: session.pgn,
                view,
            },
        }
    }

    // Adds the part of the message that the packet with this number holds.
    fn grow<'a>(
        &'a mut self,
        place: Place<IsoKey>,
        session: Session,
        number: u8,
        part: &[u8],
        moment: u64,
    ) -> IsoOutcome<'a>
        requires place { IsPlace ⟦<IsoKey as Ord>⟧.cmp self.old place }
        requires window { 1 ≤ session.window }
        requires fits { length part.now ≤ 7 }
        requires awaited { IsSomeAnd (entry_at ⟦<IsoKey as Ord>⟧.cmp self.old place.key) (λ e. number ≡ e.next) }
        ensures* after { sem 𝓛 (ends_as self.entry
            (grown_after ⟦<IsoKey as Ord>⟧.cmp self.old place.key number part.now moment (gap_after place.key.addressed session number))) }
        ensures answer { NextGives (entry_at ⟦<IsoKey as Ord>⟧.cmp self.old place.key) session
            (λ e. grown e part.now moment (gap_after place.key.addressed session number)) result }
    {
        let gap = session.gap_after(place.key.addressed, number);
        match self
            .slots
            .grow_at(place, u16::from(number), part, moment, gap)
        {
            Grown::Held => IsoOutcome::Held,
            Grown::Complete(view) => IsoOutcome::Complete {
                pgn: session.pgn,
                view,
            },
            // can't be: the session is open.
            Grown::Absent => IsoOutcome::Refused(IsoRefusal::Orphan),
            // can't be: the session waits for this packet.
            Grown::NotNext(_) => IsoOutcome::Refused(IsoRefusal::Order),
        }
    }

    // What the frame is to the sessions.
    fn verdict(&self, own: Option<u8>, parts: &Parts, place: Place<IsoKey>, bytes: &[u8]) -> Verdict
        requires key { place.key ≡ key_of parts.now }
        requires place { IsPlace ⟦<IsoKey as Ord>⟧.cmp self.now place }
        ensures map { IsMap ⟦<IsoKey as Ord>⟧.cmp self.now }
        ensures value { result ≡ verdict_of ⟦<IsoKey as Ord>⟧.cmp self.now own parts.now bytes.now }
        ensures fits { VerdictFits (is_full ⟦<IsoKey as Ord>⟧.cmp self.now (key_of parts.now))
            (entry_at ⟦<IsoKey as Ord>⟧.cmp self.now (key_of parts.now)) bytes.now result }
    {
        let crowded = self.is_crowded();
        if !is_to(own, parts.destination) {
            return Verdict::Ignored;
        }
        match parts.pgn {
            CONNECTION_MANAGEMENT => {
                let held = self.message_of(place);
                management_verdict(place.key.addressed, crowded, held, bytes)
            }
            DATA_TRANSFER => self.packet_verdict(place, bytes),
            _ => Verdict::Ignored,
        }
    }

    // What a packet is to the session of its key.
    fn packet_verdict(&self, place: Place<IsoKey>, bytes: &[u8]) -> Verdict
        requires { IsPlace ⟦<IsoKey as Ord>⟧.cmp self.now place }
        ensures { result ≡ packet_verdict place.key.addressed (entry_at ⟦<IsoKey as Ord>⟧.cmp self.now place.key) bytes.now }
    {
        match self.slots.kept_at(place) {
            None => Verdict::Refused(IsoRefusal::Orphan, None),
            Some(kept) => {
                let held = self.slots.held_bytes_at(place).unwrap_or(&[]);
                packet_verdict(place.key.addressed, kept, held, bytes)
            }
        }
    }

    // The message of the key's session, where it is open.
    fn message_of(&self, place: Place<IsoKey>) -> Option<u32>
        requires { IsPlace ⟦<IsoKey as Ord>⟧.cmp self.now place }
        ensures { result ≡ option_map pgn_in (entry_at ⟦<IsoKey as Ord>⟧.cmp self.now place.key) }
    {
        match self.slots.kept_at(place) {
            None => None,
            Some(kept) => Some(Session::of_mark(kept.mark).pgn),
        }
    }

    // Whether as many sessions are open as the limit.
    fn is_crowded(&self) -> bool
        ensures map { IsMap ⟦<IsoKey as Ord>⟧.cmp self.now }
        ensures crowded { result ≡ is_crowded self.now }
    {
        self.slots.count() == self.slots.limit()
    }

    /// Ends the session of the least key whose next frame is overdue at the moment.
    pub fn expire_one(&mut self, moment: u64) -> Option<IsoEnded>
        ensures map { IsMap ⟦<IsoKey as Ord>⟧.cmp self.old }
        ensures after { self.new ≡ without self.old (has_expired moment) }
        ensures answer { result ≡ option_map ended_of (find (has_expired moment) self.old.entries) }
    {
        match self.slots.expire_one(moment) {
            Some(ended) => Some(IsoEnded::of(ended)),
            None => None,
        }
    }

    /// Ends the session of the sender's least key: the one to all before the one to this node.
    #[tactic(auto, using(crate::proofs::Sources::least_drops))]
    pub fn drop_source(&mut self, source: u8) -> Option<IsoEnded>
        ensures map { IsMap ⟦<IsoKey as Ord>⟧.cmp self.old }
        ensures after { self.new ≡ without self.old (is_from source) }
        ensures answer { result ≡ option_map ended_of (find (is_from source) self.old.entries) }
    {
        let key = self.least_of(source);
        self.give_up(key)
    }

    // Ends the session of the key.
    #[tactic(auto, using(crate::proofs::Sources::released_sessions))]
    fn give_up(&mut self, key: IsoKey) -> Option<IsoEnded>
        ensures map { IsMap ⟦<IsoKey as Ord>⟧.cmp self.old }
        ensures after { self.new ≡ released ⟦<IsoKey as Ord>⟧.cmp self.old key }
        ensures answer { result ≡ option_map (λ e. ended_of (key, e)) (entry_at ⟦<IsoKey as Ord>⟧.cmp self.old key) }
    {
        let place = self.slots.find(key);
        let message = self.message_of(place);
        let _ = self.slots.give_up_at(place);
        match message {
            Some(pgn) => Some(IsoEnded {
                addressed: key.addressed,
                source: key.source,
                pgn,
            }),
            None => None,
        }
    }

    // The sender's least key that is held, or else its greater one.
    fn least_of(&self, source: u8) -> IsoKey
        ensures { result ≡ least_of ⟦<IsoKey as Ord>⟧.cmp self.now source }
    {
        let to_all = IsoKey {
            addressed: false,
            source,
        };
        IsoKey {
            addressed: self.slots.kept(to_all).is_none(),
            source,
        }
    }

    /// Ends the session of the least key of those to this node.
    pub fn drop_addressed(&mut self) -> Option<IsoEnded>
        ensures map { IsMap ⟦<IsoKey as Ord>⟧.cmp self.old }
        ensures after { self.new ≡ without self.old is_addressed }
        ensures answer { result ≡ option_map ended_of (find is_addressed self.old.entries) }
    {
        let low = IsoKey {
            addressed: true,
            source: 0,
        };
        let high = IsoKey {
            addressed: true,
            source: 255,
        };
        match self.slots.drop_between(low, high) {
            Some(ended) => Some(IsoEnded::of(ended)),
            None => None,
        }
    }

    /// How many sessions are open.
    pub fn count(&self) -> u16
        ensures count { result ≡ length self.now.entries }
        ensures map { IsMap ⟦<IsoKey as Ord>⟧.cmp self.now }
    {
        self.slots.count()
    }
}

// The bytes of a packet from byte 1 to this place.
fn part(bytes: &[u8], end: usize) -> &[u8]
    requires start { 1 ≤ end }
    requires enough { end ≤ length bytes.now }
    ensures { result.now ≡ part_to end bytes.now }
{
    &bytes[1..end]
}
