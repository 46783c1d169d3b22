//! What a link in memory was handed, for as long as it tells it.
ghost use Rattle.std.specs.Prelude.{◌≡◌, ◌+◌, ◌^◌, ◌<◌, ◌≤◌, ◌&&◌, ◌++◌, ◌∷◌, [], length, take, slice_get, option_map, nat_le, vec_len, vec_capacity};
ghost use Rattle.gate_outside.specs.LinkMemory.{pairs_of, total_len};

use sentence_text::Group;
use std::alloc::{AllocError, Global};
use std::marker::Model;

/// The group of a pair, and how many bytes it has.
#[derive(Clone, Copy)]
pub(crate) struct Parcel {
    pub(crate) group: Group,
    pub(crate) len: usize,
}

/// The pairs that were handed over, up to a number of pairs and of bytes in all that is reserved.
/// Once there were more, nothing is told.
#[derive(Drop)]
pub(crate) struct Handover {
    bytes: Vec<u8>,
    parcels: Vec<Parcel>,
    room: u32,
    most: u32,
    told: bool,
}

impl Model for Handover {
    ghost use Rattle.std.specs.Prelude.{◌≡◌, ◌≤◌, Some, None, vec_len, vec_capacity, if◌then◌else◌};
    ghost use Rattle.gate_outside.specs.LinkMemory.{HandedOver, pairs_of, total_len};

    ghost Value = { HandedOver };

    ghost view = { λ h. record {
      handed = if h.told then Some (pairs_of h.parcels.items h.bytes.items) else None;
      room = h.room;
      most = h.most;
    } };

    ghost invariant = { λ h. (vec_len h.bytes ≤ h.room) × (h.room ≤ vec_capacity h.bytes)
        × (vec_len h.parcels ≤ h.most) × (h.most ≤ vec_capacity h.parcels)
        × (total_len h.parcels.items ≡ vec_len h.bytes) };
}

// Whether one more pair of so many bytes is within the number of pairs and the room.
fn fits(pairs: usize, most: u32, bytes: usize, room: u32, more: usize) -> bool
    requires pairs { pairs ≤ most }
    requires bytes { bytes ≤ room }
    ensures { result ≡ (nat_le (pairs + 1) most && nat_le (bytes + more) room) }
{
    pairs < most as usize && more <= room as usize - bytes
}

// Keeps a pair, for which there is room.
fn store(bytes: &mut Vec<u8>, parcels: &mut Vec<Parcel>, group: Group, piece: &[u8])
    requires bytes { vec_len bytes.old + length piece.now ≤ vec_capacity bytes.old }
    requires parcels { vec_len parcels.old < vec_capacity parcels.old }
    ensures bytes { bytes.new.items ≡ bytes.old.items ++ piece.now }
    ensures bytes_len { vec_len bytes.new ≡ vec_len bytes.old + length piece.now }
    ensures bytes_room { vec_capacity bytes.old ≤ vec_capacity bytes.new }
    ensures parcels { parcels.new.items ≡ parcels.old.items ++ record { group = group; len = length piece.now } ∷ [] }
    ensures parcels_len { vec_len parcels.new ≡ vec_len parcels.old + 1 }
    ensures parcels_room { vec_capacity parcels.old ≤ vec_capacity parcels.new }
{
    let _fits = bytes.extend_from_slice(piece);
    parcels.push_reserved(Parcel {
        group,
        len: piece.len(),
    });
}

// How many bytes stand before the pair at a place.
#[tactic(auto, using(crate::proofs::Pairs::total_len_next, crate::proofs::Pairs::total_len_take))]
fn start_of(parcels: &[Parcel], place: usize) -> usize
    requires place { place ≤ length parcels.now }
    requires room { total_len parcels.now < 2 ^ 64 }
    ensures { result ≡ total_len (take place parcels.now) }
{
    let mut start = 0;
    for parcel in &parcels[..place] {
        start += parcel.len;
    }
    start
}

// The pair at a place of those whose bytes stand behind one another.
#[tactic(auto, using(crate::proofs::Pairs::pair_past, crate::proofs::Pairs::ends_within))]
fn pair_in<'a>(parcels: &[Parcel], bytes: &'a [u8], place: usize) -> Option<(Group, &'a [u8])>
    requires bytes { total_len parcels.now ≡ length bytes.now }
    ensures { option_map (λ p. (p.0, p.1.now)) result ≡ slice_get (pairs_of parcels.now bytes.now) place }
{
    if place >= parcels.len() {
        return None;
    }
    let parcel = parcels[place];
    let start = start_of(parcels, place);
    Some((parcel.group, &bytes[start..start + parcel.len]))
}

impl Handover {
    ghost use Rattle.std.specs.Prelude.{◌≡◌, [], Some, None, IfOk, IsOk, is_some, option_map, if◌then◌else◌};
    ghost use Rattle.gate_outside.specs.LinkMemory.{told_after, pair_at};

    /// Nothing yet, with room for so many bytes in so many pairs. With none of either it takes no
    /// memory.
    pub(crate) fn with_room(alloc: Global, room: u32, most: u32) -> Result<Self, AllocError>
        ensures empty { IfOk result (λ h. h ≡ record { handed = Some []; room = room; most = most }) }
        ensures succeeds { room ≡ 0 → most ≡ 0 → IsOk result }
    {
        let bytes = Vec::with_capacity(alloc, room as usize)?;
        let parcels = Vec::with_capacity(alloc, most as usize)?;
        Ok(Handover {
            bytes,
            parcels,
            room,
            most,
            told: true,
        })
    }

    pub(crate) fn tells(&self) -> bool
        ensures { result ≡ is_some self.now.handed }
    {
        self.told
    }

    /// Tells nothing any more.
    pub(crate) fn stop(&mut self)
        ensures { self.new ≡ record self.old { handed = None } }
    {
        self.told = false;
    }

    /// Tells nothing any more, where so.
    pub(crate) fn stop_if(&mut self, so: bool)
        ensures { self.new ≡ record self.old { handed = if so then None else self.old.handed } }
    {
        self.told = self.told && !so;
    }

    pub(crate) fn add(&mut self, group: Group, piece: &[u8])
        ensures { self.new ≡ record self.old { handed = told_after self.old.handed self.old.room self.old.most (group, piece.now) } }
    {
        if !self.told {
            return;
        }
        if !fits(
            self.parcels.len(),
            self.most,
            self.bytes.len(),
            self.room,
            piece.len(),
        ) {
            self.told = false;
            return;
        }
        store(&mut self.bytes, &mut self.parcels, group, piece);
    }

    /// The pair at a place, counted from 0.
    pub(crate) fn pair(&self, place: usize) -> Option<(Group, &[u8])>
        ensures { option_map (λ p. (p.0, p.1.now)) result ≡ pair_at self.now.handed place }
    {
        if !self.told {
            return None;
        }
        pair_in(&self.parcels, &self.bytes, place)
    }
}
