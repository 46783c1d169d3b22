ghost use Rattle.std.specs.Prelude.{◌≡◌, IsTrue};
ghost use Rattle.sentence_text.specs.Byte.{is_field_byte};
ghost use Rattle.sentence_fields.specs.Field as text;

/// The letter of a status or mode: `first` where something is there, `second` where nothing is.
pub fn letter_where(there: bool, first: u8, second: u8) -> u8
    requires first { IsTrue (is_field_byte first) }
    requires second { IsTrue (is_field_byte second) }
    ensures value { result ≡ text.letter_where there first second }
    ensures printable { IsTrue (is_field_byte result) }
{
    if there { first } else { second }
}
