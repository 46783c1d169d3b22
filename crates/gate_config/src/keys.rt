//! Keys that have to be there, and keys with a default.
ghost use Rattle.std.specs.Prelude.{◌≡◌, IfOk};
ghost use Rattle.std.specs.Int.{IsInRange};
ghost use Rattle.std.specs.List.{list_any};
ghost use Rattle.config_document.specs.Keys.{number_at, text_at, truth_at};
ghost use Rattle.config_document.specs.Places.{place_of};
ghost use Rattle.gate_config.specs.Keys.{stands_at};
ghost use Rattle.gate_config.specs.Reading.{default, needed, section_at};
ghost use Rattle.config_document.specs.Keys.{Sees};

use config_document::{ConfigFault, Section, Written};

/// The number at a key that has to be there.
#[tactic(auto, unfolding(crate::specs::Reading::needed))]
pub(crate) fn needed_number(
    section: &Section,
    name: &str,
    least: u32,
    most: u32,
) -> Result<u32, ConfigFault>
    ensures said { result ≡ needed (number_at least most) (place_of section.now) name.now }
    ensures valid { IfOk result (IsInRange least most) }
{
    match section.number(name, least, most) {
        Ok(Some(number)) => Ok(number),
        Ok(None) => section.required(name, None),
        Err(fault) => Err(fault),
    }
}

/// The number at a key, or its default.
#[tactic(auto, unfolding(crate::specs::Reading::default))]
pub(crate) fn number_or(
    section: &Section,
    name: &str,
    least: u32,
    most: u32,
    other: u32,
) -> Result<u32, ConfigFault>
    requires { IsInRange least most other }
    ensures said { result ≡ default other (number_at least most) (place_of section.now) name.now }
    ensures valid { IfOk result (IsInRange least most) }
{
    match section.number(name, least, most) {
        Ok(Some(number)) => Ok(number),
        Ok(None) => Ok(other),
        Err(fault) => Err(fault),
    }
}

/// The truth value at a key, or its default.
#[tactic(auto, unfolding(crate::specs::Reading::default))]
pub(crate) fn truth_or(section: &Section, name: &str, other: bool) -> Result<bool, ConfigFault>
    ensures { result ≡ default other truth_at (place_of section.now) name.now }
{
    match section.truth(name) {
        Ok(found) => Ok(found.unwrap_or(other)),
        Err(fault) => Err(fault),
    }
}

/// What the text says at a key that has to be there.
#[tactic(auto, unfolding(crate::specs::Reading::needed))]
pub(crate) fn needed_text<T: Written>(section: &Section, name: &str) -> Result<T, ConfigFault>
    ensures said { result ≡ needed (text_at T.said_by) (place_of section.now) name.now }
    ensures valid { IfOk result T.is_valid }
{
    match section.text(name) {
        Ok(Some(said)) => Ok(said),
        Ok(None) => section.required(name, None),
        Err(fault) => Err(fault),
    }
}

/// What the text says at a key, or its default.
#[tactic(auto, unfolding(crate::specs::Reading::default))]
pub(crate) fn text_or<T: Written + Drop>(
    section: &Section,
    name: &str,
    other: T,
) -> Result<T, ConfigFault>
    requires { T.is_valid other }
    ensures said { result ≡ default other (text_at T.said_by) (place_of section.now) name.now }
    ensures valid { IfOk result T.is_valid }
{
    match section.text(name) {
        Ok(Some(said)) => Ok(said),
        Ok(None) => Ok(other),
        Err(fault) => Err(fault),
    }
}

/// Whether anything stands at a key.
pub(crate) fn stands_at(section: &Section, name: &str) -> bool
    ensures { result ≡ stands_at name.now (place_of section.now) }
{
    section.member(name).is_some()
}

/// Whether anything stands at one of these keys.
pub(crate) fn any_stands(section: &Section, names: &[&str]) -> bool
    ensures { result ≡ list_any (λ name. stands_at name.now (place_of section.now)) names.now }
{
    names.iter().any(|name| stands_at(section, name))
}

/// The table at a key; its keys have this prefix.
pub(crate) fn section<'a>(
    parent: &Section<'a>,
    name: &str,
    prefix: &'a [u8],
) -> Result<Section<'a>, ConfigFault>
    ensures { Sees place_of result (section_at (place_of parent.now) name.now prefix.now) }
{
    match parent.table_at(name) {
        Ok(table) => Ok(Section { prefix, table }),
        Err(fault) => Err(fault),
    }
}
