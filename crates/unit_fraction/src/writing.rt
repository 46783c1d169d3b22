ghost use Rattle.std.specs.Prelude.{◌≡◌, ◌+◌, ◌*◌, ◌/◌, ◌<◌, ◌≤◌, ◌^◌, ◌∷◌, ◌++◌, length, IsTrue, ◌↔◌, false};
ghost use Rattle.std.specs.Fmt.{decimal};
ghost use Rattle.arrayvec.specs.ArrayVec.{array_vec_len};
ghost use Rattle.unit_fraction.specs.Text.{decimals, IsDecimalText, decimal_text};

use crate::backward::Backward;
use arrayvec::ArrayVec;

/// Puts the last `places` digits of `n` in front, and gives the number that is left.
#[tactic(auto, using(crate::proofs::Text::decimals_start))]
fn put_decimals(text: &mut Backward, n: u64, places: u8) -> u64
    requires { length text.old + places ≤ 20 }
    ensures text { text.new ≡ decimals places n ++ text.old }
    ensures rest { result ≡ n / 10 ^ places }
    ensures len { length text.new ≡ length text.old + places }
{
    let mut rest = n;
    for _ in 0..places {
        text.put(b'0' + (rest % 10) as u8);
        rest /= 10;
    }
    rest
}

/// Puts all digits of `n` in front, at least one.
#[tactic(auto, using(crate::proofs::Text::whole_fits, crate::proofs::Text::whole_step, crate::proofs::Text::whole_last))]
fn put_whole(text: &mut Backward, n: u64)
    requires { length text.old ≤ 14 }
    ensures text { text.new ≡ decimal n ++ text.old }
    ensures len { length text.new ≤ length text.old + 20 }
{
    let mut rest = n;
    while rest >= 10 {
        text.put(b'0' + (rest % 10) as u8);
        rest /= 10;
    }
    text.put(b'0' + rest as u8);
}

fn decimal_text_of(negative: bool, digits: u64, places: u8) -> Backward
    requires { places ≤ 12 }
    ensures { result ≡ decimal_text negative digits places }
{
    let mut text = Backward::new();
    let whole = put_decimals(&mut text, digits, places);
    if places > 0 {
        text.put(b'.');
    }
    put_whole(&mut text, whole);
    if negative && digits != 0 {
        text.put(b'-');
    }
    text
}

/// Appends `digits / 10^places` with exactly `places` decimals: at least one digit before the point, no point
/// where there are no decimals, and a minus only where the number isn't zero. Says whether it fitted; if not,
/// nothing is appended.
#[tactic(auto, using(crate::proofs::Text::has_form))]
pub fn write_decimal(negative: bool, digits: u64, places: u8, out: &mut ArrayVec<u8, 82>) -> bool
    requires { places ≤ 12 }
    ensures fits { IsTrue result ↔ (array_vec_len out.old + length (decimal_text negative digits places) ≤ 82) }
    ensures written { IsTrue result → out.new.items ≡ out.old.items ++ decimal_text negative digits places }
    ensures form { IsDecimalText negative digits places (decimal_text negative digits places) }
    ensures unchanged { result ≡ false → out.new ≡ out.old }
{
    let text = decimal_text_of(negative, digits, places);
    out.try_extend_from_slice(text.as_slice()).is_ok()
}
