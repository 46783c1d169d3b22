//! Keys that aren't known. Of all of them the one is told whose path comes first in the order of bytes.
ghost use Rattle.std.specs.Prelude.{◌≡◌, ◌++◌, IfOk, map};
ghost use Rattle.toml.specs.View.{table_view};
ghost use Rattle.config_document.specs.Places.{place_of};
ghost use Rattle.config_document.specs.Unknown.{is_among, least_of, lesser, path_seen, unknown_in, unknown_members};

use crate::section::Section;
use std::alloc::{AllocError, Global};
use std::cmp::Ordering;
use toml::Table;

/// The least path among this one, where there is one, and those of the table's keys that aren't known.
pub fn least_unknown(
    alloc: Global,
    section: &Section,
    known: &[&str],
    least: Option<Vec<u8>>,
) -> Result<Option<Vec<u8>>, AllocError>
    ensures { IfOk result (λ found. path_seen found ≡ least_of (path_seen least) (unknown_in (map (λ word. word.now) known.now) (place_of section.now))) }
{
    match section.table {
        None => Ok(least),
        Some(table) => least_in(alloc, table, section.prefix, known, least),
    }
}

/// The same of a table that is there.
fn least_in(
    alloc: Global,
    table: &Table,
    prefix: &[u8],
    known: &[&str],
    least: Option<Vec<u8>>,
) -> Result<Option<Vec<u8>>, AllocError>
    ensures { IfOk result (λ found. path_seen found ≡ least_of (path_seen least) (unknown_members (map (λ word. word.now) known.now) prefix.now (table_view table.now))) }
{
    let mut least = least;
    for (name, _value) in table.iter() {
        if !is_among(name.as_str(), known) {
            let path = path_of(alloc, prefix, name.as_bytes())?;
            least = lesser(least, path);
        }
    }
    Ok(least)
}

/// Whether the name is one of these.
fn is_among(name: &str, known: &[&str]) -> bool
    ensures { result ≡ is_among name.now (map (λ word. word.now) known.now) }
{
    for word in known {
        if name == *word {
            return true;
        }
    }
    false
}

fn path_of(alloc: Global, prefix: &[u8], name: &[u8]) -> Result<Vec<u8>, AllocError>
    ensures { IfOk result (λ path. path.items ≡ prefix.now ++ name.now) }
{
    let mut path = Vec::new(alloc);
    path.extend_from_slice(prefix)?;
    path.extend_from_slice(name)?;
    Ok(path)
}

/// The lesser of two paths, in the order of bytes.
fn lesser(least: Option<Vec<u8>>, path: Vec<u8>) -> Option<Vec<u8>>
    ensures { path_seen result ≡ lesser (path_seen least) path.items }
{
    match least {
        None => Some(path),
        Some(best) => match path.as_slice().cmp(best.as_slice()) {
            Ordering::Less => Some(path),
            Ordering::Equal | Ordering::Greater => Some(best),
        },
    }
}
