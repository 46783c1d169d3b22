ghost use Rattle.std.specs.Prelude.{◌≡◌, Some, None, is_some};
ghost use Rattle.sentence_profile.specs.Writing as text;

/// The value, where it is the one that is meant.
pub(crate) fn only_if(meant: bool, value: Option<i64>) -> Option<i64>
    ensures { result ≡ text.only_if meant value }
{
    if meant { value } else { None }
}

/// The value, where the other is there as well.
pub(crate) fn beside(value: Option<i64>, other: Option<i64>) -> Option<i64>
    ensures { result ≡ text.beside value other }
{
    if other.is_some() { value } else { None }
}
