ghost use Rattle.std.specs.Prelude.{◌≡◌, ◌^◌, ◌<◌, ◌≤◌, ◌↔◌, length, take, IsTrue, IsSome, IfSome};
ghost use Rattle.n2k_id.specs.Name.{IsMadeOf, bits_at, fields_of, name_at, name_bytes, values, widths, FitEach, number_of};

/// The 64-bit NAME by which a device claims its address (ISO 11783-5). Of two devices that claim one
/// address, the one whose NAME is the smaller number has it.
#[derive(Clone, Copy, Default, PartialEq, Eq, PartialOrd, Ord)]
pub struct Name(pub u64);

/// The fields of a NAME, from bit 0 on (ISO 11783-5).
///
/// | Field | Bits |
/// |---|---|
/// | unique number of the device, given by its manufacturer | 21 |
/// | manufacturer | 11 |
/// | device instance, lower part | 3 |
/// | device instance, upper part | 5 |
/// | function | 8 |
/// | reserved | 1 |
/// | device class | 7 |
/// | system instance | 4 |
/// | industry group; 4 is marine | 3 |
/// | arbitrary address capable: the device may move to another address | 1 |
#[derive(Clone, Copy)]
pub struct NameFields {
    pub unique: u32,
    pub manufacturer: u16,
    pub instance_lower: u8,
    pub instance_upper: u8,
    pub function: u8,
    pub reserved: u8,
    pub class: u8,
    pub system_instance: u8,
    pub industry: u8,
    pub arbitrary: bool,
}

impl Name {
    /// The fields that the NAME consists of.
    pub fn fields(self) -> NameFields
        ensures fields { result ≡ fields_of self.0 }
        ensures layout { IsMadeOf self.0 result }
    {
        cut(self.0)
    }

    /// The NAME that consists of these fields: `fields` gives them back. None exactly where a field
    /// is too wide.
    #[tactic(auto, using(crate::proofs::NameLemmas::fields_of_made))]
    pub fn of_fields(f: NameFields) -> Option<Name>
        ensures some { IsSome result ↔ FitEach widths (values f) }
        ensures layout { IfSome result (λ name. IsMadeOf name.0 f) }
        ensures inverse { IfSome result (λ name. fields_of name.0 ≡ f) }
    {
        if !fit(f) {
            return None;
        }
        Some(Name(number(&f)))
    }
}

/// The NAME in the first 8 bytes, low byte first. None exactly where there are fewer.
#[tactic(auto, unfolding(crate::specs::Name::name_at, crate::specs::Name::name_bytes))]
pub fn read_name(bytes: &[u8]) -> Option<Name>
    ensures some { IsSome result ↔ (8 ≤ length bytes.now) }
    ensures name { IfSome result (λ name. name.0 ≡ name_at bytes.now) }
    ensures inverse { IfSome result (λ name. name_bytes name.0 ≡ take 8 bytes.now) }
{
    match bytes.first_chunk::<8>() {
        None => None,
        Some(first) => Some(Name(u64::from_le_bytes(*first))),
    }
}

/// The 8 bytes of a NAME, low byte first: `read_name` gives it back.
#[tactic(auto, unfolding(crate::specs::Name::name_at, crate::specs::Name::name_bytes))]
pub fn write_name(name: Name) -> [u8; 8]
    ensures bytes { result ≡ name_bytes name.0 }
    ensures inverse { name_at result ≡ name.0 }
{
    name.0.to_le_bytes()
}

#[tactic(auto, unfolding(crate::specs::Name::fields_of, crate::specs::Name::is_arbitrary))]
fn cut(name: u64) -> NameFields
    ensures { result ≡ fields_of name }
{
    NameFields {
        unique: bits(name, 0, 21) as u32,
        manufacturer: bits(name, 21, 11) as u16,
        instance_lower: bits(name, 32, 3) as u8,
        instance_upper: bits(name, 35, 5) as u8,
        function: bits(name, 40, 8) as u8,
        reserved: bits(name, 48, 1) as u8,
        class: bits(name, 49, 7) as u8,
        system_instance: bits(name, 56, 4) as u8,
        industry: bits(name, 60, 3) as u8,
        arbitrary: bits(name, 63, 1) == 1,
    }
}

#[tactic(auto, using(std::proofs::lemmas::Nat::one_shl), unfolding(crate::specs::Name::bits_at))]
fn bits(number: u64, low: u32, width: u32) -> u64
    requires low { low < 64 }
    requires width { width < 64 }
    ensures bits { result ≡ bits_at low width number }
    ensures fits { result < 2 ^ width }
{
    (number >> low) % (1 << width)
}

#[tactic(auto, unfolding(crate::specs::Name::widths, crate::specs::Name::values))]
fn fit(f: NameFields) -> bool
    ensures { IsTrue result ↔ FitEach widths (values f) }
{
    f.unique < 1 << 21
        && f.manufacturer < 1 << 11
        && f.instance_lower < 1 << 3
        && f.instance_upper < 1 << 5
        && f.reserved < 1 << 1
        && f.class < 1 << 7
        && f.system_instance < 1 << 4
        && f.industry < 1 << 3
}

#[tactic(auto, unfolding(crate::specs::Name::widths, crate::specs::Name::values))]
fn number(f: &NameFields) -> u64
    requires { FitEach widths (values f.now) }
    ensures { result ≡ number_of widths (values f.now) }
{
    u64::from(f.unique)
        + (u64::from(f.manufacturer) << 21)
        + (u64::from(f.instance_lower) << 32)
        + (u64::from(f.instance_upper) << 35)
        + (u64::from(f.function) << 40)
        + (u64::from(f.reserved) << 48)
        + (u64::from(f.class) << 49)
        + (u64::from(f.system_instance) << 56)
        + (u64::from(f.industry) << 60)
        + (u64::from(f.arbitrary) << 63)
}
