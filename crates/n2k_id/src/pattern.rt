ghost use Rattle.std.specs.Prelude.{◌≡◌, ◌^◌, ◌<◌, ◌↔◌, ℕ, IsTrue};
ghost use Rattle.n2k_id.specs.Name.{fields_of, Matches, allows, matches, stating};

use crate::name::{Name, NameFields};

/// A choice of devices by the fields of their NAMEs: what isn't stated may have any value.
#[derive(Clone, Copy, Default, PartialEq, Eq)]
pub struct Pattern {
    pub unique: Option<u32>,
    pub manufacturer: Option<u16>,
    pub instance_lower: Option<u8>,
    pub instance_upper: Option<u8>,
    pub function: Option<u8>,
    pub reserved: Option<u8>,
    pub class: Option<u8>,
    pub system_instance: Option<u8>,
    pub industry: Option<u8>,
    pub arbitrary: Option<bool>,
}

impl Pattern {
    /// The pattern that states all ten fields of the NAME, and so matches it alone.
    pub fn whole(name: Name) -> Pattern
        ensures pattern { result ≡ stating (fields_of name.0) }
        ensures alone { (other : ℕ) → other < 2 ^ 64 → Matches result (fields_of other) ↔ (other ≡ name.0) }
    {
        state(name.fields())
    }

    /// Whether each stated field has that value in the NAME.
    #[tactic(auto, using(crate::proofs::PatternLemmas::matches_tells), unfolding(crate::specs::Name::matches, crate::specs::Name::matches_fields))]
    pub fn matches(&self, name: Name) -> bool
        ensures value { result ≡ matches self.now name.0 }
        ensures fields { IsTrue result ↔ Matches self.now (fields_of name.0) }
    {
        let f = name.fields();
        // Most patterns differ in what they state most often: the other fields take several times as long.
        if !allows(self.unique, f.unique)
            || !allows(self.manufacturer, f.manufacturer)
            || !allows(self.function, f.function)
            || !allows(self.class, f.class)
        {
            return false;
        }
        allows(self.unique, f.unique)
            & allows(self.manufacturer, f.manufacturer)
            & allows(self.instance_lower, f.instance_lower)
            & allows(self.instance_upper, f.instance_upper)
            & allows(self.function, f.function)
            & allows(self.reserved, f.reserved)
            & allows(self.class, f.class)
            & allows(self.system_instance, f.system_instance)
            & allows(self.industry, f.industry)
            & allows(self.arbitrary, f.arbitrary)
    }
}

#[tactic(auto, unfolding(crate::specs::Name::stating))]
fn state(f: NameFields) -> Pattern
    ensures { result ≡ stating f }
{
    Pattern {
        unique: Some(f.unique),
        manufacturer: Some(f.manufacturer),
        instance_lower: Some(f.instance_lower),
        instance_upper: Some(f.instance_upper),
        function: Some(f.function),
        reserved: Some(f.reserved),
        class: Some(f.class),
        system_instance: Some(f.system_instance),
        industry: Some(f.industry),
        arbitrary: Some(f.arbitrary),
    }
}

/// Whether a value isn't stated, or is this one.
fn allows<T: Copy + PartialEq>(stated: Option<T>, value: T) -> bool
    ensures { result ≡ allows T.eq stated value }
{
    match stated {
        None => true,
        Some(v) => v == value,
    }
}
