//! Who holds which address, and what claims and commands make of it.
ghost use Rattle.std.specs.Prelude.{◌≡◌, ◌<◌, ◌+◌, ◌%◌, ◌↔◌, ◌==◌, ◌&&◌, ◌||◌, ℕ, true, false, not, nat_lt};
ghost use Rattle.std.specs.Prelude.{is_none, length, All, Err, IfOk, IfSome, IsTrue, None, Some, position, slice_set};
ghost use Rattle.claim_table.specs.Cases.{CanGoTo, IsCase, IsReady};
ghost use Rattle.claim_table.specs.Claims.{IsSinceBy, answer_to_request, at_other, at_own, claim, claim_of, command, holder_at, is_held_by, is_obeyed, is_ready, left_by, move_places, moved, next_free, next_own, other_than, places, settled, started, step_of, vacated, with_released, with_taken, without_left, claims_at_start, repeats, takes};
ghost use Rattle.claim_table.specs.Laws.{IsSound};

use crate::answer::{ClaimStep, Holder, OwnAnswer};
use crate::fault::ClaimFault;
use crate::preset::{Preset, placed};
use n2k_id::Name;
use n2k_id::address::NULL_ADDRESS;
use std::alloc::Global;
use std::marker::Model;

/// How many addresses the gateway may move to: 0 to 251.
pub const MOVE_PLACES: u8 = 252;

/// How long after its claim a device waits before it sends anything else, in microseconds.
const CLAIM_WAIT: u64 = 250_000;

/// Who holds which address, and which is the gateway's own.
#[derive(Drop)]
pub struct ClaimTable {
    name: Name,
    holders: Vec<Option<Holder>>,
    own: Option<u8>,
    counted_from: u64,
}

impl Model for ClaimTable {
    ghost use Rattle.std.specs.Prelude.{◌≡◌, length};
    ghost use Rattle.claim_table.specs.Claims.{Claims, places};

    ghost Value = { Claims };

    ghost view = { λ t. record { name = t.name.0; holders = t.holders.items; own = t.own; counted_from = t.counted_from } };

    ghost invariant = { λ t. length t.holders.items ≡ places };
}

/// Where a NAME that takes the gateway's address comes from, and where the gateway goes.
#[derive(Clone, Copy)]
struct Ways {
    left: Option<u8>,
    next: Option<u8>,
}

impl ClaimTable {
    /// The table before the first event: each preset holds its address, and the gateway has the
    /// preferred one, of 0 to 251.
    ///
    /// It fails with `PresetTwice` exactly where two presets share an address or a NAME, and else with
    /// `OwnTaken` exactly where a preset has the preferred address or the own NAME.
    #[tactic(auto, using(crate::proofs::OpenedLemmas::opened_sound), unfolding(crate::specs::Claims::claims_at_start))]
    pub fn new(
        alloc: Global,
        own: Name,
        preferred: u8,
        presets: &[Preset],
    ) -> Result<ClaimTable, ClaimFault>
        requires preferred { preferred < move_places }
        requires presets { All (λ p. p.address < places) presets.now }
        ensures twice { (result ≡ Err ClaimFault.PresetTwice) ↔ (repeats presets.now ≡ true) }
        ensures taken { (result ≡ Err ClaimFault.OwnTaken) ↔ ((repeats presets.now ≡ false) × (takes own.0 preferred presets.now ≡ true)) }
        ensures opened { IfOk result (λ table. table ≡ claims_at_start own.0 preferred presets.now) }
        ensures sound { IfOk result IsSound }
        ensures dated { IfOk result (λ table. All (IsSinceBy 0) table.holders) }
    {
        if Preset::repeat(presets) {
            return Err(ClaimFault::PresetTwice);
        }
        if Preset::take(presets, own, preferred) {
            return Err(ClaimFault::OwnTaken);
        }
        match placed(alloc, presets) {
            Err(fault) => Err(ClaimFault::Memory(fault)),
            Ok(holders) => Ok(ClaimTable {
                name: own,
                holders,
                own: Some(preferred),
                counted_from: 0,
            }),
        }
    }

    /// Sets the moment, in microseconds, from which readiness is counted.
    pub fn start(&mut self, moment: u64)
        ensures { self.new ≡ started self.old moment }
    {
        self.counted_from = moment;
    }

    /// Who holds the address. None exactly where nobody does, or the gateway itself.
    pub fn holder(&self, address: u8) -> Option<Holder>
        ensures { result ≡ holder_at self.now.holders address }
    {
        self.holders.get(usize::from(address)).copied().flatten()
    }

    /// The gateway's own address. None exactly where its last change was a cannot claim.
    pub fn own(&self) -> Option<u8>
        ensures { result ≡ self.now.own }
    {
        self.own
    }

    /// What the gateway answers to a request for its claim.
    pub fn request(&self) -> OwnAnswer
        ensures { result ≡ answer_to_request self.now.own }
    {
        match self.own {
            Some(_) => OwnAnswer::Defend,
            None => OwnAnswer::CannotClaim,
        }
    }

    /// Whether the gateway has had its address for 250 milliseconds, and so may send.
    pub fn ready(&self, moment: u64) -> bool
        ensures ready { result ≡ is_ready self.now moment }
        ensures exactly { IsTrue result ↔ IsReady self.now moment }
    {
        match moment.checked_sub(self.counted_from) {
            None => false,
            Some(passed) => self.own.is_some() && passed >= CLAIM_WAIT,
        }
    }
}

impl ClaimTable {
    /// Handles the claim of an address by a NAME, at the index and moment of its event.
    ///
    /// The NAME leaves the address that it held. Of two NAMEs that claim one address, the smaller
    /// number has it: the gateway defends its address against a greater one and gives way to a
    /// smaller one (ISO 11783-5).
    ///
    /// The address is 0 to 254, and 254 says that the NAME can claim none; the index is at least that
    /// of every claim before.
    pub fn claim(&mut self, address: u8, name: Name, index: u64, moment: u64) -> ClaimStep
        requires address { address < 255 }
        requires latest { All (IsSinceBy index) self.old.holders }
        ensures cases { IsCase self.old (claim_of address name.0 index moment) (record { after = self.new; step = result }) }
        ensures after { self.new ≡ (claim self.old (claim_of address name.0 index moment)).after }
        ensures step { result ≡ (claim self.old (claim_of address name.0 index moment)).step }
        ensures latest { All (IsSinceBy index) self.new.holders }
    {
        self.handle(address, name, index, moment)
    }

    /// The claim itself, for any index.
    fn handle(&mut self, address: u8, name: Name, index: u64, moment: u64) -> ClaimStep
        requires { address < 255 }
        ensures after { self.new ≡ (claim self.old (claim_of address name.0 index moment)).after }
        ensures step { result ≡ (claim self.old (claim_of address name.0 index moment)).step }
    {
        if name == self.name {
            return step_of(None, OwnAnswer::Duplicate);
        }
        if address < NULL_ADDRESS && self.own == Some(address) && name < self.name {
            return self.give_way(address, name, index, moment);
        }
        let released = self.left_by(address, name);
        self.vacate(released);
        let step = self.settle(address, name, index);
        ClaimStep { released, ..step }
    }

    /// The own address is claimed by a smaller NAME: it has the address from now on, and the gateway
    /// moves. One pass over the places tells both which address the NAME leaves and where the gateway
    /// goes, which may be the address left.
    fn give_way(&mut self, address: u8, name: Name, index: u64, moment: u64) -> ClaimStep
        requires { address < places }
        ensures after { let k = claim_of address name.0 index moment in self.new ≡ (at_own (without_left self.old k) k false).after }
        ensures step { let k = claim_of address name.0 index moment in
            result ≡ (with_released (left_by self.old k) (at_own (without_left self.old k) k false)).step }
    {
        let ways = self.ways(address, name);
        self.vacate(ways.left);
        self.take(address, name, index);
        let own = self.go(ways.next, moment);
        ClaimStep {
            lost: None,
            released: ways.left,
            own,
        }
    }

    /// The gateway goes to this address, or has none.
    fn go(&mut self, next: Option<u8>, moment: u64) -> OwnAnswer
        ensures after { self.new ≡ (moved self.old moment next).after }
        ensures own { result ≡ (moved self.old moment next).step.own }
    {
        self.own = next;
        match next {
            None => OwnAnswer::CannotClaim,
            Some(address) => {
                self.counted_from = moment;
                OwnAnswer::Move(address)
            }
        }
    }

    /// What the NAME leaves by claiming the lost address, and where the gateway goes. One whose NAME isn't
    /// arbitrary address capable goes nowhere, so that no free address is sought for it.
    #[tactic(auto, unfolding(crate::specs::Claims::next_own, n2k_id::specs::Name::fields_of))]
    fn ways(&self, lost: u8, name: Name) -> Ways
        requires { lost < places }
        ensures left { result.left ≡ other_than lost (position (is_held_by name.0) self.now.holders) }
        ensures within { IfSome result.left (λ place. place < places) }
        ensures next { (index moment : ℕ) → let vacant = vacated self.now.holders result.left in result.next ≡
            next_own (with_taken (record self.now { holders = vacant }) (claim_of lost name.0 index moment)) lost }
    {
        if self.name.fields().arbitrary {
            self.search(lost, name)
        } else {
            Ways {
                left: self.left_by(lost, name),
                next: None,
            }
        }
    }

    /// One pass over the places finds both: the one that the NAME leaves by claiming the lost address,
    /// and the first after the lost one that has no holder then. That is the one with the fewest steps,
    /// so that the pass may begin at any place.
    fn search(&self, lost: u8, name: Name) -> Ways
        requires lost { lost < places }
        requires room { length self.now.holders ≡ places }
        ensures left { result.left ≡ other_than lost (position (is_held_by name.0) self.now.holders) }
        ensures within { IfSome result.left (λ place. place < places) }
        ensures next { (h : Holder) → result.next ≡ next_free (slice_set (vacated self.now.holders result.left) lost (Some h)) lost }
    {
        let mut held = None;
        let mut fewest = MOVE_PLACES;
        for place in 0..NULL_ADDRESS {
            let holder = self.holder(place);
            let leaves = is_first_held(held, &holder, name);
            if leaves {
                held = Some(place);
            }
            if is_open(lost, place, &holder, leaves) {
                fewest = fewest.min(steps_to(lost, place));
            }
        }
        Ways {
            left: other_than(lost, held),
            next: address_after(lost, fewest),
        }
    }

    /// The address that the NAME leaves by claiming this one.
    fn left_by(&self, address: u8, name: Name) -> Option<u8>
        ensures left { result ≡ other_than address (position (is_held_by name.0) self.now.holders) }
        ensures within { IfSome result (λ place. place < places) }
    {
        other_than(address, place_of(&self.holders, name))
    }

    /// Nobody holds the address any more.
    fn vacate(&mut self, left: Option<u8>)
        requires { IfSome left (λ place. place < places) }
        ensures { self.new ≡ record self.old { holders = vacated self.old.holders left } }
    {
        if let Some(place) = left {
            self.holders[usize::from(place)] = None;
        }
    }

    /// What comes of a claim that the gateway doesn't give way to, once the NAME holds no other address. Its
    /// moment plays no part.
    fn settle(&mut self, address: u8, name: Name, index: u64) -> ClaimStep
        requires within { address < 255 }
        requires stays { address < places → self.old.own ≡ Some address → self.old.name < name.0 }
        ensures after { (moment : ℕ) → self.new ≡ (settled self.old (claim_of address name.0 index moment) (address == 254)).after }
        ensures step { (moment : ℕ) → result ≡ (settled self.old (claim_of address name.0 index moment) (address == 254)).step }
    {
        if address == NULL_ADDRESS {
            return step_of(None, OwnAnswer::Silent);
        }
        if self.own == Some(address) {
            step_of(None, OwnAnswer::Defend)
        } else {
            self.contest(address, name, index)
        }
    }

    /// The NAME holds the address from this index on.
    fn take(&mut self, address: u8, name: Name, index: u64)
        requires { address < places }
        ensures { self.new ≡ with_taken self.old (claim_of address name.0 index 0) }
    {
        self.holders[usize::from(address)] = Some(Holder { name, since: index });
    }

    /// An address that isn't the gateway's is claimed: the smaller NAME has it.
    fn contest(&mut self, address: u8, name: Name, index: u64) -> ClaimStep
        requires { address < places }
        ensures after { (moment : ℕ) → self.new ≡ (at_other self.old (claim_of address name.0 index moment) (holder_at self.old.holders address)).after }
        ensures step { (moment : ℕ) → result ≡ (at_other self.old (claim_of address name.0 index moment) (holder_at self.old.holders address)).step }
    {
        match self.holder(address) {
            None => {
                self.take(address, name, index);
                step_of(None, OwnAnswer::Silent)
            }
            Some(holder) => {
                if name < holder.name {
                    self.take(address, name, index);
                    step_of(Some((address, holder.name)), OwnAnswer::Silent)
                } else {
                    step_of(None, OwnAnswer::Silent)
                }
            }
        }
    }

    /// Handles a command to go to an address. It is obeyed, and readiness is counted from the moment,
    /// exactly where the address is at most 251, isn't the own one and has no holder. The NAME's
    /// arbitrary address bit plays no part.
    #[tactic(auto, using(crate::proofs::CaseLemmas::obeyed_tells), unfolding(crate::specs::Claims::command))]
    pub fn command(&mut self, address: u8, moment: u64) -> bool
        ensures after { self.new ≡ command self.old address moment }
        ensures obeyed { result ≡ is_obeyed self.old address }
        ensures exactly { IsTrue result ↔ CanGoTo self.old address }
        ensures holders { self.new.holders ≡ self.old.holders }
    {
        let obeyed = self.is_obeyed(address);
        if obeyed {
            self.own = Some(address);
            self.counted_from = moment;
        }
        obeyed
    }

    #[tactic(auto, unfolding(crate::specs::Claims::is_obeyed))]
    fn is_obeyed(&self, address: u8) -> bool
        ensures { result ≡ is_obeyed self.now address }
    {
        address < MOVE_PLACES && self.own != Some(address) && self.holder(address).is_none()
    }
}

/// The address that the NAME holds. A table has 254 places, so its place is a byte.
fn place_of(holders: &[Option<Holder>], name: Name) -> Option<u8>
    requires { length holders.now ≡ places }
    ensures place { result ≡ position (is_held_by name.0) holders.now }
    ensures within { IfSome result (λ place. place < places) }
{
    match first_of(holders, name) {
        None => None,
        Some(place) => Some(place as u8),
    }
}

fn first_of(holders: &[Option<Holder>], name: Name) -> Option<usize>
    ensures place { result ≡ position (is_held_by name.0) holders.now }
    ensures within { IfSome result (λ place. place < length holders.now) }
{
    holders.iter().position(|holder| is_held_by(holder, name))
}

fn is_held_by(holder: &Option<Holder>, name: Name) -> bool
    ensures { result ≡ is_held_by name.0 holder.now }
{
    match holder {
        None => false,
        Some(h) => h.name == name,
    }
}

/// What is told of a claim by which no address was left.
fn step_of(lost: Option<(u8, Name)>, own: OwnAnswer) -> ClaimStep
    ensures { result ≡ step_of lost own }
{
    ClaimStep {
        lost,
        released: None,
        own,
    }
}

/// Whether the NAME holds this place and none of those before it.
fn is_first_held(before: Option<u8>, holder: &Option<Holder>, name: Name) -> bool
    ensures { result ≡ (is_none before && is_held_by name.0 holder.now) }
{
    before.is_none() && is_held_by(holder, name)
}

/// Whether the gateway may move to a place from the lost one: nobody is there, or the NAME that takes the
/// lost one leaves it.
fn is_open(lost: u8, place: u8, holder: &Option<Holder>, leaves: bool) -> bool
    ensures open { result ≡ (nat_lt place move_places && not (place == lost) && (leaves || is_none holder.now)) }
    ensures within { IsTrue result → place < move_places }
{
    place < MOVE_PLACES && place != lost && (leaves || holder.is_none())
}

/// The address that a NAME holds, unless it is this one.
fn other_than(address: u8, held: Option<u8>) -> Option<u8>
    requires { IfSome held (λ place. place < places) }
    ensures other { result ≡ other_than address held }
    ensures within { IfSome result (λ place. place < places) }
{
    match held {
        None => None,
        Some(place) => { if place == address { None } else { Some(place) } }
    }
}

/// How many steps on from the first address after the lost one this one is, in cyclic order over those
/// that the gateway may move to.
fn steps_to(lost: u8, address: u8) -> u8
    requires lost { lost < places }
    requires address { address < move_places }
    ensures there { (lost + 1 + result) % move_places ≡ address }
    ensures within { result < move_places }
{
    let first = (lost + 1) % MOVE_PLACES;
    if address < first {
        address + (MOVE_PLACES - first)
    } else {
        address - first
    }
}

/// The address so many steps on from the first one after the lost one; none, where that is a whole round.
fn address_after(lost: u8, steps: u8) -> Option<u8>
    requires lost { lost < places }
    ensures none { steps ≡ move_places → result ≡ None }
    ensures some { steps < move_places → result ≡ Some ((lost + 1 + steps) % move_places) }
{
    if steps < MOVE_PLACES {
        Some(((u16::from(lost) + 1 + u16::from(steps)) % u16::from(MOVE_PLACES)) as u8)
    } else {
        None
    }
}
