//! Numbers as bits, of which the highest is the first.
ghost use Rattle.std.specs.Prelude.{◌≡◌, ◌+◌, ◌^◌, ◌<◌, ◌≤◌, ◌++◌, length};
ghost use Rattle.ais_report.specs.Bits.{bits_of, number_of};

use arrayvec::ArrayVec;

/// How many bits a report has.
pub(crate) const REPORT_BITS: usize = 168;

/// The bits of a report.
pub(crate) type Bits = ArrayVec<bool, REPORT_BITS>;

/// Appends so many bits of a number: the lowest ones.
pub(crate) fn append_bits(width: usize, number: u32, out: &mut Bits)
    requires width { width ≤ 32 }
    requires room { length out.old.items + width ≤ 168 }
    ensures { out.new.items ≡ out.old.items ++ bits_of width number }
{
    let mut left = width;
    while left > 0 {
        left -= 1;
        out.push((number >> left) % 2 == 1);
    }
}

/// The number whose bits these are.
pub(crate) fn number_of(bits: &[bool]) -> u32
    requires { length bits.now ≤ 31 }
    ensures number { result ≡ number_of bits.now }
    ensures below { result < 2 ^ length bits.now }
{
    let mut number = 0;
    for &bit in bits {
        number = 2 * number + u32::from(bit);
    }
    number
}
