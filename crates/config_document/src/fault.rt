//! What can be wrong with a configuration, and the line that says it.
ghost use Rattle.std.specs.Prelude.{◌≡◌, ◌+◌, ◌≤◌, ◌++◌, codes, length};
ghost use Rattle.config_document.specs.Faults.{cut, fault_at, key_of, line_of};

use arrayvec::ArrayVec;

/// How many bytes of a path are shown.
const MOST_KEY: usize = 128;

/// The path of a key, cut after 128 bytes.
pub type Key = ArrayVec<u8, MOST_KEY>;

/// What is wrong with the value of a key.
#[derive(Clone, Copy)]
pub enum Flaw {
    /// It is of another type of TOML.
    Kind,
    /// It isn't of the form, the length or the range of its key.
    Range,
    /// It repeats what may stand once.
    Twice,
}

/// What is wrong with a configuration, and with which key.
#[derive(Drop)]
pub enum ConfigFault {
    /// The bytes are no TOML document.
    NotToml,
    /// A key that has to be there isn't.
    Missing(Key),
    /// The value is of another type of TOML.
    Kind(Key),
    /// The value isn't of the form, the length or the range of its key.
    Range(Key),
    /// The value repeats what may stand once.
    Twice(Key),
    /// No such key is known.
    Unknown(Key),
    /// Memory ran out.
    Memory,
}

/// The line of a fault.
pub type FaultLine = ArrayVec<u8, 144>;

/// The key whose path these two make.
#[tactic(auto, using(crate::proofs::Cutting::cut_twice))]
pub fn key_of(prefix: &[u8], name: &[u8]) -> Key
    ensures { result ≡ key_of (prefix.now ++ name.now) }
{
    let mut key = Key::new();
    append_cut(&mut key, prefix);
    append_cut(&mut key, name);
    key
}

/// Appends as many of the bytes as there is room for.
#[tactic(auto, using(crate::proofs::Cutting::fills))]
fn append_cut(key: &mut Key, bytes: &[u8])
    requires { length key.old.items ≤ 128 }
    ensures items { key.new.items ≡ cut (key.old.items ++ bytes.now) }
    ensures len { length key.new.items ≤ 128 }
{
    let room = MOST_KEY - key.len();
    let end = bytes.len().min(room);
    let _fits = key.try_extend_from_slice(&bytes[..end]);
}

/// The fault of a value at this path.
pub fn fault_at(flaw: Flaw, prefix: &[u8], name: &[u8]) -> ConfigFault
    ensures { result ≡ fault_at flaw (prefix.now ++ name.now) }
{
    let key = key_of(prefix, name);
    match flaw {
        Flaw::Kind => ConfigFault::Kind(key),
        Flaw::Range => ConfigFault::Range(key),
        Flaw::Twice => ConfigFault::Twice(key),
    }
}

impl ConfigFault {
    ghost use Rattle.std.specs.Prelude.{◌≡◌, option_map};
    ghost use Rattle.config_document.specs.Faults.{line_of};

    /// What is wrong in one line, without its end; none for want of memory, which is no fault of the file.
    pub fn line(&self) -> Option<FaultLine>
        ensures { option_map (λ line. line.items) result ≡ line_of self.now }
    {
        match self {
            ConfigFault::NotToml => Some(line_of(b"not toml", b"")),
            ConfigFault::Missing(key) => Some(line_of(b"missing ", key.as_slice())),
            ConfigFault::Kind(key) => Some(line_of(b"kind ", key.as_slice())),
            ConfigFault::Range(key) => Some(line_of(b"range ", key.as_slice())),
            ConfigFault::Twice(key) => Some(line_of(b"twice ", key.as_slice())),
            ConfigFault::Unknown(key) => Some(line_of(b"unknown ", key.as_slice())),
            ConfigFault::Memory => None,
        }
    }
}

/// The line of what is wrong, and with which key.
fn line_of(wrong: &[u8], key: &[u8]) -> FaultLine
    requires wrong { length wrong.now ≤ 8 }
    requires key { length key.now ≤ 128 }
    ensures { result.items ≡ codes "config: " ++ wrong.now ++ key.now }
{
    let mut line = FaultLine::new();
    append(&mut line, b"config: ");
    append(&mut line, wrong);
    append(&mut line, key);
    line
}

/// Appends bytes for which there is room.
fn append(line: &mut FaultLine, bytes: &[u8])
    requires room { length line.old.items + length bytes.now ≤ 144 }
    ensures items { line.new.items ≡ line.old.items ++ bytes.now }
{
    let _fits = line.try_extend_from_slice(bytes);
}
