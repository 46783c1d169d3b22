//! What a message says of the quantities.
ghost use Rattle.std.specs.Prelude.{◌≡◌, IfSome, IsTrue, option_map};
ghost use Rattle.std.specs.List.{list_all};
ghost use Rattle.quantities.specs.Sound.{is_entry_readable};
ghost use Rattle.quantities.specs.Told.{GivesFrom, IsInOrder, entries, entry_at, given, told, value_at, value_by};

use crate::payloads::{Entry, entries_of};
use crate::saying::usable;
use crate::value::{Told, Value};

/// The entry whose payload it is, of those that give the value at this place of a message.
fn entry_at(group: &'static [Entry], payload: &[u8], place: usize) -> Option<&'static Entry>
    requires { IsTrue (list_all is_entry_readable group.now) }
    ensures found { option_map (λ e. e.now) result ≡ entry_at group.now payload.now place }
    ensures readable { IfSome result (λ e. IsTrue (is_entry_readable e.now)) }
{
    for entry in group {
        if entry.place == place && entry.selector.selects(payload) {
            return Some(entry);
        }
    }
    None
}

/// The values of the entry's payload.
fn value_of(entry: &Entry, payload: &[u8]) -> Value
    requires { IsTrue (is_entry_readable entry.now) }
    ensures { result ≡ value_by entry.now payload.now }
{
    let parts = &entry.parts;
    Value {
        quantity: entry.quantity,
        values: [
            parts.first.value(payload),
            parts.second.value(payload),
            parts.third.value(payload),
            parts.fourth.value(payload),
            parts.fifth.value(payload),
            parts.sixth.value(payload),
        ],
    }
}

/// What the entry's payload gives.
fn given(entry: &Entry, payload: &[u8]) -> Option<Value>
    requires { IsTrue (is_entry_readable entry.now) }
    ensures { result ≡ given entry.now payload.now }
{
    let value = value_of(entry, payload);
    if entry.only_usable && !usable(&value) {
        None
    } else {
        Some(value)
    }
}

/// What the payload gives at this place of a message.
fn value_at(group: &'static [Entry], payload: &[u8], place: usize) -> Option<Value>
    requires { IsTrue (list_all is_entry_readable group.now) }
    ensures { result ≡ value_at group.now payload.now place }
{
    match entry_at(group, payload, place) {
        Some(entry) => given(entry, payload),
        None => None,
    }
}

fn told_by(pgn: u32, payload: &[u8]) -> Told
    ensures { result ≡ told pgn payload.now }
{
    let group = entries_of(pgn);
    let first = match group.first() {
        Some(entry) => entry,
        None => return Told::Outside,
    };
    if payload.len() < first.least {
        return Told::Short;
    }
    Told::Values([
        value_at(group, payload, 0),
        value_at(group, payload, 1),
        value_at(group, payload, 2),
    ])
}

/// What the payload of a message of the parameter group says.
#[tactic(auto, using(crate::proofs::InRange::is_from, crate::proofs::Order::is_in_order))]
pub fn read(pgn: u32, payload: &[u8]) -> Told
    ensures value { result ≡ told pgn payload.now }
    // Each value that is told is in its range.
    ensures range { GivesFrom entries result }
    // They are of different quantities, in the order of the quantities.
    ensures order { IsInOrder result }
{
    told_by(pgn, payload)
}
