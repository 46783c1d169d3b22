ghost use Rattle.std.specs.Prelude.{◌≡◌, ◌≤◌, length, take, bit_xor};
ghost use Rattle.std.specs.List.{fold, prefix_len};
ghost use Rattle.tag_block.specs.Tag as bytes;

/// The class of each byte, by its code: `c` of those that a code has, `v` of those that only values have, `-` of all others. One look here
/// takes less time than to compare with the ranges.
static CLASSES: [u8; 256] = *b"\
    --------------------------------\
    vvvvvvvvvv-v-vvvccccccccccvvvvvv\
    vccccccccccccccccccccccccccv-vvv\
    vccccccccccccccccccccccccccvvvv-\
    --------------------------------\
    --------------------------------\
    --------------------------------\
    --------------------------------";

#[tactic(auto, using(crate::proofs::Classes::code_is))]
fn is_code_byte(byte: u8) -> bool
    ensures { result ≡ bytes.is_code_byte byte }
{
    CLASSES[usize::from(byte)] == b'c'
}

#[tactic(auto, using(crate::proofs::Classes::value_is))]
fn is_value_byte(byte: u8) -> bool
    ensures { result ≡ bytes.is_value_byte byte }
{
    CLASSES[usize::from(byte)] >= b'c'
}

/// How many bytes of a code come first, and the exclusive or of the sum before and these bytes.
#[tactic(auto, using(crate::proofs::Run::run_starts, crate::proofs::Run::run_goes_on, crate::proofs::Run::run_stops, crate::proofs::Run::run_ends))]
pub(crate) fn code_run(text: &[u8], before: u8) -> (usize, u8)
    ensures run { result.0 ≡ prefix_len bytes.is_code_byte text.now }
    ensures within { result.0 ≤ length text.now }
    ensures sum { result.1 ≡ fold bit_xor before (take result.0 text.now) }
{
    let mut sum = before;
    for (count, byte) in text.iter().enumerate() {
        if !is_code_byte(*byte) {
            return (count, sum);
        }
        sum ^= *byte;
    }
    (text.len(), sum)
}

/// How many bytes of a value come first, and the exclusive or of the sum before and these bytes.
#[tactic(auto, using(crate::proofs::Run::run_starts, crate::proofs::Run::run_goes_on, crate::proofs::Run::run_stops, crate::proofs::Run::run_ends))]
pub(crate) fn value_run(text: &[u8], before: u8) -> (usize, u8)
    ensures run { result.0 ≡ prefix_len bytes.is_value_byte text.now }
    ensures within { result.0 ≤ length text.now }
    ensures sum { result.1 ≡ fold bit_xor before (take result.0 text.now) }
{
    let mut sum = before;
    for (count, byte) in text.iter().enumerate() {
        if !is_value_byte(*byte) {
            return (count, sum);
        }
        sum ^= *byte;
    }
    (text.len(), sum)
}
