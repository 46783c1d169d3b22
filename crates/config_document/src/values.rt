//! The kinds of values.
ghost use Rattle.std.specs.Prelude.{◌≡◌, ◌≤◌, All, IfOk, IfSome, option_map, length};
ghost use Rattle.std.specs.Int.{IsInRange};
ghost use Rattle.toml.specs.View.{items_view, view};
ghost use Rattle.config_document.specs.Kinds.{are_tables, are_texts, list_in, number_in, said_in, tables_in, text_in, truth_in};
ghost use Rattle.config_document.specs.Places.{SeesTables};

use crate::fault::Flaw;
use crate::written::Written;
use arrayvec::ArrayVec;
use toml::Value;

/// A whole number from the least to the most.
pub(crate) fn number(value: &Value, least: u32, most: u32) -> Result<u32, Flaw>
    ensures said { result ≡ number_in least most (view value.now) }
    ensures valid { IfOk result (IsInRange least most) }
{
    match value.as_integer() {
        None => Err(Flaw::Kind),
        Some(integer) => match u32::try_from(integer) {
            Ok(number) if least <= number && number <= most => Ok(number),
            _ => Err(Flaw::Range),
        },
    }
}

pub(crate) fn truth(value: &Value) -> Result<bool, Flaw>
    ensures { result ≡ truth_in (view value.now) }
{
    value.as_bool().ok_or(Flaw::Kind)
}

/// What a text says.
pub(crate) fn text<T: Written>(value: &Value) -> Result<T, Flaw>
    ensures said { result ≡ text_in T.said_by (view value.now) }
    ensures valid { IfOk result T.is_valid }
{
    match value.as_str() {
        None => Err(Flaw::Kind),
        Some(text) => match T::of(text.as_bytes()) {
            Some(said) => Ok(said),
            None => Err(Flaw::Range),
        },
    }
}

/// What the texts of a list say, at most so many: a value of another type comes before all else that may be wrong.
pub(crate) fn list<T: Written + Default + Drop, const MOST: usize>(
    value: &Value,
) -> Result<ArrayVec<T, MOST>, Flaw>
    ensures said { result ≡ list_in T.said_by MOST (view value.now) }
    ensures valid { IfOk result (λ list. All T.is_valid list.items) }
{
    match value.as_array() {
        None => Err(Flaw::Kind),
        Some(items) => {
            let items = items.as_slice();
            if !are_texts(items) {
                return Err(Flaw::Kind);
            }
            match said::<T, MOST>(items) {
                Some(list) => Ok(list),
                None => Err(Flaw::Range),
            }
        }
    }
}

fn are_texts(items: &[Value]) -> bool
    ensures { result ≡ are_texts (items_view items.now) }
{
    items.iter().all(Value::is_str)
}

/// What each of the texts says, where each says something and there is room for all.
fn said<T: Written + Default + Drop, const MOST: usize>(
    items: &[Value],
) -> Option<ArrayVec<T, MOST>>
    ensures said { result ≡ said_in T.said_by MOST (items_view items.now) }
    ensures valid { IfSome result (λ list. All T.is_valid list.items) }
{
    if items.len() > MOST {
        return None;
    }
    let mut list = ArrayVec::new();
    for item in items {
        match item.as_str() {
            None => return None,
            Some(text) => match T::of(text.as_bytes()) {
                None => return None,
                Some(said) => list.push(said),
            },
        }
    }
    Some(list)
}

/// The values of a list of tables, at most so many.
#[tactic(auto, using(crate::proofs::Lists::tables_few, crate::proofs::Lists::tables_many, crate::proofs::Lists::tables_other))]
pub(crate) fn tables(value: &Value, most: usize) -> Result<&[Value], Flaw>
    ensures said { SeesTables result (tables_in most (view value.now)) }
    ensures few { IfOk result (λ values. length values.now ≤ most) }
{
    match value.as_array() {
        None => Err(Flaw::Kind),
        Some(items) => {
            let items = items.as_slice();
            if !are_tables(items) {
                return Err(Flaw::Kind);
            }
            if items.len() > most {
                return Err(Flaw::Range);
            }
            Ok(items)
        }
    }
}

fn are_tables(items: &[Value]) -> bool
    ensures { result ≡ are_tables (items_view items.now) }
{
    items.iter().all(Value::is_table)
}
