//! A table of the document, and what its keys hold.

use crate::fault::{ConfigFault, Flaw, fault_at, key_of};
use crate::values::{list, number, tables, text, truth};
use crate::written::Written;
use arrayvec::ArrayVec;
use toml::{Table, Value};

/// A table of the document, and what stands before its keys in their paths.
#[derive(Clone, Copy)]
pub struct Section<'a> {
    /// The path of the table and a point; before the document's own keys nothing.
    pub prefix: &'a [u8],
    /// The table; none where the file doesn't have it.
    pub table: Option<&'a Table>,
}

impl<'a> Section<'a> {
    ghost use Rattle.std.specs.Prelude.{◌≡◌, ◌≤◌, All, IfOk, length, map, option_map};
    ghost use Rattle.config_document.specs.Places.{members_seen};
    ghost use Rattle.std.specs.Option.{ForSome};
    ghost use Rattle.std.specs.Int.{IsInRange};
    ghost use Rattle.toml.specs.Data.{get_member, as_table};
    ghost use Rattle.toml.specs.View.{view, table_view};
    ghost use Rattle.config_document.specs.Faults.{fault_at, missing};
    ghost use Rattle.config_document.specs.Places.{place_of, path_of};
    ghost use Rattle.config_document.specs.Keys.{list_at, number_at, required, table_at, text_at, tables_at, truth_at, Sees};

    /// What stands at a key.
    pub fn member(&self, name: &str) -> Option<&'a Value>
        ensures { option_map (λ value. view value.now) result ≡ get_member name.now (place_of self.now).members }
    {
        match self.table {
            None => None,
            Some(table) => table.get(name),
        }
    }

    /// The fault of what stands at a key.
    pub fn fault(&self, name: &str, flaw: Flaw) -> ConfigFault
        ensures { result ≡ fault_at flaw (path_of (place_of self.now) name.now) }
    {
        fault_at(flaw, self.prefix, name.as_bytes())
    }

    /// What was found at a key that has to be there.
    pub fn required<T>(&self, name: &str, found: Option<T>) -> Result<T, ConfigFault>
        ensures { result ≡ required (place_of self.now) name.now found }
    {
        match found {
            Some(value) => Ok(value),
            None => Err(ConfigFault::Missing(key_of(self.prefix, name.as_bytes()))),
        }
    }

    /// The whole number at a key, from the least to the most.
    pub fn number(&self, name: &str, least: u32, most: u32) -> Result<Option<u32>, ConfigFault>
        ensures said { result ≡ number_at least most (place_of self.now) name.now }
        ensures valid { IfOk result (λ found. ForSome found (IsInRange least most)) }
    {
        match self.member(name) {
            None => Ok(None),
            Some(value) => match number(value, least, most) {
                Ok(number) => Ok(Some(number)),
                Err(flaw) => Err(self.fault(name, flaw)),
            },
        }
    }

    /// The truth value at a key.
    pub fn truth(&self, name: &str) -> Result<Option<bool>, ConfigFault>
        ensures { result ≡ truth_at (place_of self.now) name.now }
    {
        match self.member(name) {
            None => Ok(None),
            Some(value) => match truth(value) {
                Ok(truth) => Ok(Some(truth)),
                Err(flaw) => Err(self.fault(name, flaw)),
            },
        }
    }

    /// What the text at a key says.
    pub fn text<T: Written>(&self, name: &str) -> Result<Option<T>, ConfigFault>
        ensures said { result ≡ text_at T.said_by (place_of self.now) name.now }
        ensures valid { IfOk result (λ found. ForSome found T.is_valid) }
    {
        match self.member(name) {
            None => Ok(None),
            Some(value) => match text(value) {
                Ok(said) => Ok(Some(said)),
                Err(flaw) => Err(self.fault(name, flaw)),
            },
        }
    }

    /// What the texts in the list at a key say; nothing where there is no list.
    pub fn list<T: Written + Default + Drop, const MOST: usize>(
        &self,
        name: &str,
    ) -> Result<ArrayVec<T, MOST>, ConfigFault>
        ensures said { result ≡ list_at T.said_by MOST (place_of self.now) name.now }
        ensures valid { IfOk result (λ list. All T.is_valid list.items) }
    {
        match self.member(name) {
            None => Ok(ArrayVec::new()),
            Some(value) => match list(value) {
                Ok(list) => Ok(list),
                Err(flaw) => Err(self.fault(name, flaw)),
            },
        }
    }

    /// The table at a key.
    pub fn table_at(&self, name: &str) -> Result<Option<&'a Table>, ConfigFault>
        ensures { Sees (option_map (λ table. table_view table.now)) result (table_at (place_of self.now) name.now) }
    {
        match self.member(name) {
            None => Ok(None),
            Some(value) => match value.as_table() {
                Some(table) => Ok(Some(table)),
                None => Err(self.fault(name, Flaw::Kind)),
            },
        }
    }

    /// The tables at a key, at most so many; none where there is no list. A value of another type comes before too many of them.
    pub fn tables_at(&self, name: &str, most: usize) -> Result<&'a [Value], ConfigFault>
        ensures said { Sees (λ values. map members_seen values.now) result (tables_at most (place_of self.now) name.now) }
        ensures few { IfOk result (λ values. length values.now ≤ most) }
    {
        match self.member(name) {
            None => Ok(&[]),
            Some(value) => match tables(value, most) {
                Ok(tables) => Ok(tables),
                Err(flaw) => Err(self.fault(name, flaw)),
            },
        }
    }
}
