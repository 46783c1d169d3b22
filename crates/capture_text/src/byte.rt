ghost use Rattle.std.specs.Prelude.{◌≡◌, ◌≤◌, ◌&&◌, not, codes, length, slice_index, take, true, false};
ghost use Rattle.std.specs.Char.{is_ascii_graphic};
ghost use Rattle.std.specs.List.{list_all, prefix_len};
ghost use Rattle.capture_text.specs.Capture as capture;
ghost use Rattle.capture_text.specs.Reading as spec;

use sentence_text::Group;

/// How many bytes come before the first space, or before the end.
fn text_run(text: &[u8]) -> usize
    ensures run { result ≡ prefix_len spec.is_no_space text.now }
    ensures within { result ≤ length text.now }
{
    text.iter().take_while(|byte| **byte != b' ').count()
}

/// The bytes before the first space, or before the end.
pub(crate) fn up_to_space(text: &[u8]) -> &[u8]
    ensures { result.now ≡ spec.up_to_space text.now }
{
    text.split_at(text_run(text)).0
}

/// Whether all are bytes of a name. All are tested, many at once, and none is a reason to stop.
#[tactic(auto, using(std::proofs::lemmas::List::Folds::list_all_more))]
fn all_of_name(text: &[u8]) -> bool
    ensures { result ≡ list_all is_ascii_graphic text.now }
{
    let mut all = true;
    for byte in text {
        all = all & byte.is_ascii_graphic();
    }
    all
}

/// Whether a name of four bytes and a space come first, as in nearly every line.
#[tactic(auto, using(crate::proofs::Lines::four_first))]
fn is_name_of_four(text: &[u8]) -> bool
    ensures name { result ≡ true → (4 ≤ length text.now) × (prefix_len is_ascii_graphic text.now ≡ 4) }
    ensures space { result ≡ true → slice_index text.now 4 ≡ 32 }
{
    text.len() > 4 && text[4] == b' ' && all_of_name(&text[..4])
}

/// Whether a bus has this name.
pub(crate) fn is_bus(name: &[u8]) -> bool
    ensures { result ≡ (not (spec.is_name (codes "tick") name.now) && not (spec.is_name (codes "udp0") name.now)) }
{
    name != b"tick".as_slice() && name != b"udp0".as_slice()
}

/// How many bytes of a name come first.
pub(crate) fn name_run(text: &[u8]) -> usize
    ensures run { result ≡ prefix_len is_ascii_graphic text.now }
    ensures within { result ≤ length text.now }
{
    if is_name_of_four(text) {
        return 4;
    }
    text.iter()
        .take_while(|byte| byte.is_ascii_graphic())
        .count()
}

/// Whether a line ends here, or a space and any text follow.
pub(crate) fn is_end(rest: &[u8]) -> bool
    ensures { result ≡ capture.is_end rest.now }
{
    matches!(rest, [] | [b' ', ..])
}

pub(crate) fn is_group(text: &[u8]) -> bool
    ensures { result ≡ spec.is_group text.now }
{
    Group::of(text).is_some()
}
