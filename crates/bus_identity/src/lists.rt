//! The lists of parameter groups (PGN 126464), after canboat's description: the function in byte 0, 0 for what is sent and 1 for
//! what is taken in, then the groups of three bytes each, low byte first.

ghost use Rattle.std.specs.Prelude.{◌≡◌, ◌+◌, ◌*◌, ◌<◌, ◌≤◌, ◌^◌, ◌++◌, nat_le, length};
ghost use Rattle.std.specs.List.{AllByRecursion, flat_map, position, position_or_len};
ghost use Rattle.bus_identity.specs.PgnLists.{has, received_with, sent_by, sent_with, taken_by, with_group, with_groups};
ghost use Rattle.bus_identity.specs.Payloads.{list_of, pgn_bytes, received_list, sent_list};

use crate::pgn;
use crate::product::{Payload, append};
use arrayvec::ArrayVec;
use n2k_id::pgn::{
    ACKNOWLEDGEMENT, ADDRESS_CLAIMED, COMMANDED_ADDRESS, CONNECTION_MANAGEMENT, DATA_TRANSFER,
    REQUEST,
};
use readings::{ROWS, Row, all_rows};

/// What the gateway sends as a device.
const SENT: [u32; 6] = [
    ACKNOWLEDGEMENT,
    REQUEST,
    CONNECTION_MANAGEMENT,
    ADDRESS_CLAIMED,
    pgn::PGN_LISTS,
    pgn::PRODUCT_INFORMATION,
];

/// What it takes in as a device.
const RECEIVED: [u32; 5] = [
    REQUEST,
    DATA_TRANSFER,
    CONNECTION_MANAGEMENT,
    ADDRESS_CLAIMED,
    COMMANDED_ADDRESS,
];

/// Those of a device, and two of each row.
const MOST_GROUPS: usize = 6 + 2 * ROWS;

/// Parameter groups, each once, in the order of their numbers.
type Groups = ArrayVec<u32, MOST_GROUPS>;

/// The list of what the gateway sends.
pub(crate) fn sent_list() -> Payload
    ensures { result.items ≡ sent_list }
{
    list_of(0, &sent(all_rows()))
}

/// The list of what it takes in.
pub(crate) fn received_list() -> Payload
    ensures { result.items ≡ received_list }
{
    list_of(1, &received(all_rows()))
}

/// What the gateway sends with these rows.
fn sent(rows: &[Row; ROWS]) -> Groups
    ensures { result.items ≡ sent_with rows.now }
{
    let mut groups = Groups::new();
    add_all(&SENT, &mut groups);
    for row in rows {
        add_sent(*row, &mut groups);
    }
    groups
}

/// Adds what the row is sent by.
fn add_sent(row: Row, groups: &mut Groups)
    requires room { length groups.old.items < MOST_GROUPS }
    ensures groups { groups.new.items ≡ with_groups groups.old.items (sent_by row) }
    ensures length { length groups.new.items ≤ length groups.old.items + 1 }
{
    add(row.pgn(), groups);
}

/// What it takes in with these rows.
fn received(rows: &[Row; ROWS]) -> Groups
    ensures { result.items ≡ received_with rows.now }
{
    let mut groups = Groups::new();
    add_all(&RECEIVED, &mut groups);
    for row in rows {
        add_received(*row, &mut groups);
    }
    groups
}

/// Adds what the row is taken in by.
fn add_received(row: Row, groups: &mut Groups)
    requires room { length groups.old.items + 2 ≤ MOST_GROUPS }
    ensures groups { groups.new.items ≡ with_groups groups.old.items (taken_by row) }
    ensures length { length groups.new.items ≤ length groups.old.items + 2 }
{
    add(row.pgn(), groups);
    if let Some(also) = row.also() {
        add(also, groups);
    }
}

/// Adds each of these.
fn add_all(pgns: &[u32], groups: &mut Groups)
    requires room { length groups.old.items + length pgns.now ≤ MOST_GROUPS }
    ensures groups { groups.new.items ≡ with_groups groups.old.items pgns.now }
    ensures length { length groups.new.items ≤ length groups.old.items + length pgns.now }
{
    for &pgn in pgns {
        add(pgn, groups);
    }
}

/// Adds a group in its place, where it isn't there.
fn add(pgn: u32, groups: &mut Groups)
    requires room { length groups.old.items < MOST_GROUPS }
    ensures groups { groups.new.items ≡ with_group pgn groups.old.items }
    ensures length { length groups.new.items ≤ length groups.old.items + 1 }
{
    if !has(groups, pgn) {
        let place = place_of(groups, pgn);
        groups.insert(place, pgn);
    }
}

fn has(groups: &[u32], pgn: u32) -> bool
    ensures { result ≡ has groups.now pgn }
{
    groups.iter().any(|group| *group == pgn)
}

/// The first place that no smaller group has.
#[tactic(auto, using(crate::proofs::PgnListLemmas::past_all))]
fn place_of(groups: &[u32], pgn: u32) -> usize
    ensures place { result ≡ position_or_len (nat_le pgn) groups.now }
    ensures within { result ≤ length groups.now }
{
    match position_of(groups, pgn) {
        Some(place) => place,
        None => groups.len(),
    }
}

fn position_of(groups: &[u32], pgn: u32) -> Option<usize>
    ensures { result ≡ position (nat_le pgn) groups.now }
{
    groups.iter().position(|group| pgn <= *group)
}

/// A list with its function.
#[tactic(auto, using(crate::proofs::PayloadLemmas::length_groups))]
fn list_of(function: u8, pgns: &[u32]) -> Payload
    requires room { 1 + 3 * length pgns.now ≤ 134 }
    requires groups { AllByRecursion (λ pgn. pgn < 2 ^ 24) pgns.now }
    ensures { result.items ≡ list_of function pgns.now }
{
    let mut out = Payload::new();
    append(&[function], &mut out);
    append_groups(pgns, &mut out);
    out
}

fn append_groups(pgns: &[u32], out: &mut Payload)
    requires room { length out.old.items + length (flat_map pgn_bytes pgns.now) ≤ 134 }
    requires groups { AllByRecursion (λ pgn. pgn < 2 ^ 24) pgns.now }
    ensures { out.new.items ≡ out.old.items ++ flat_map pgn_bytes pgns.now }
{
    for &pgn in pgns {
        append_group(pgn, out);
    }
}

fn append_group(pgn: u32, out: &mut Payload)
    requires room { length out.old.items + 3 ≤ 134 }
    requires group { pgn < 2 ^ 24 }
    ensures { out.new.items ≡ out.old.items ++ pgn_bytes pgn }
{
    let bytes = pgn.to_le_bytes();
    append(&[bytes[0], bytes[1], bytes[2]], out);
}
