//! What stands before the keys of a table in their paths: of an item of a list, and of a table within a table.
ghost use Rattle.std.specs.Prelude.{◌≡◌, ◌+◌, ◌≤◌, ◌++◌, decimal, length};
ghost use Rattle.gate_config.specs.Reading.{item_prefix, key_prefix};

use arrayvec::ArrayVec;
use unit_fraction::write_decimal;

/// What stands before the keys of an item or of a table within a table, as `preset.12.` or `row.depth.`.
pub(crate) type Prefix = ArrayVec<u8, 82>;

/// What stands before the keys of the item of this number, counted from 1.
pub(crate) fn item_prefix(word: &[u8], number: usize) -> Prefix
    requires { length word.now ≤ 8 }
    ensures { result.items ≡ item_prefix word.now number }
{
    let mut prefix = Prefix::new();
    append(&mut prefix, word);
    append_number(&mut prefix, number as u64);
    append(&mut prefix, b".");
    prefix
}

/// What stands before the keys of the table of this name within a table.
pub(crate) fn key_prefix(word: &[u8], name: &str) -> Prefix
    requires word { length word.now ≤ 8 }
    requires name { length name.now ≤ 60 }
    ensures { result.items ≡ key_prefix word.now name.now }
{
    let mut prefix = Prefix::new();
    append(&mut prefix, word);
    append(&mut prefix, name.as_bytes());
    append(&mut prefix, b".");
    prefix
}

fn append(prefix: &mut Prefix, bytes: &[u8])
    requires { length prefix.old.items + length bytes.now ≤ 82 }
    ensures items { prefix.new.items ≡ prefix.old.items ++ bytes.now }
    ensures len { length prefix.new.items ≡ length prefix.old.items + length bytes.now }
{
    let _fits = prefix.try_extend_from_slice(bytes);
}

#[tactic(auto, using(crate::proofs::Decimals::plain_decimal, crate::proofs::Decimals::few_digits))]
fn append_number(prefix: &mut Prefix, number: u64)
    requires { length prefix.old.items ≤ 60 }
    ensures items { prefix.new.items ≡ prefix.old.items ++ decimal number }
    ensures len { length prefix.new.items ≤ length prefix.old.items + 20 }
{
    let _fits = write_decimal(false, number, 0, prefix);
}
