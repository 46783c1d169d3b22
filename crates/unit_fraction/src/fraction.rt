ghost use Rattle.std.specs.Prelude.{◌≡◌, ◌+◌, ◌*◌, ◌/◌, ◌%◌, ◌<◌, ◌≤◌, ◌^◌, ℤ, pos, ◌*ℤ◌};
ghost use Rattle.unit_fraction.specs.Round.{IsRound, nearest, round, signed};

use crate::decimal::Decimal;

/// A ratio of whole numbers, such as 900 / 463 from hundredths of a metre a second to hundredths of a knot.
#[derive(Clone, Copy)]
pub struct Fraction {
    pub num: u64,
    pub den: u64,
    pub ghost positive: { 0 < den },
}

/// Quotient and rest, in as many bits as the numbers need: a division of 128 bits takes several times as long
/// as one of 64.
fn divide(value: u128, by: u128) -> (u128, u128)
    requires { 0 < by }
    ensures { (result.0 ≡ value / by) × (result.1 ≡ value % by) }
{
    if value <= u64::MAX as u128 && by <= u64::MAX as u128 {
        let (value, by) = (value as u64, by as u64);
        ((value / by) as u128, (value % by) as u128)
    } else {
        (value / by, value % by)
    }
}

/// The nearest whole number to `value / by`; halves go up.
#[tactic(auto, using(crate::proofs::Nearest::nearest_by_rest))]
fn nearest_of(value: u128, by: u128) -> u128
    requires { 0 < by }
    ensures { result ≡ nearest value by }
{
    let (whole, rest) = divide(value, by);
    if rest >= by - rest { whole + 1 } else { whole }
}

/// The same with a sign, so that halves go away from zero.
#[tactic(auto, using(crate::proofs::Nearest::nearest_le))]
fn nearest_signed(negative: bool, size: u128, by: u128) -> i128
    requires positive { 0 < by }
    requires fits { size < 2 ^ 127 }
    ensures { result ≡ signed negative (nearest size by) }
{
    let size = nearest_of(size, by) as i128;
    if negative { -size } else { size }
}

#[tactic(auto, using(crate::proofs::Round::round_product, crate::proofs::Nearest::product_fits))]
fn scaled(f: Fraction, raw: i64) -> i128
    ensures { result ≡ round (raw *ℤ pos f.num) f.den }
{
    let size = raw.unsigned_abs() as u128 * f.num as u128;
    nearest_signed(raw < 0, size, f.den as u128)
}

#[tactic(auto, using(crate::proofs::Round::round_signed, crate::proofs::Nearest::decimal_fits, crate::proofs::Nearest::power_fits))]
fn scaled_decimal(f: Fraction, d: &Decimal) -> i128
    requires den { f.den ≤ 10 ^ 18 }
    requires digits { d.now.digits < 10 ^ 14 }
    requires places { d.now.places ≤ 12 }
    ensures { result ≡ round (signed d.now.negative (d.now.digits * f.num)) (10 ^ d.now.places * f.den) }
{
    let size = d.digits as u128 * f.num as u128;
    let by = 10u64.pow(d.places as u32) as u128 * f.den as u128;
    nearest_signed(d.negative, size, by)
}

/// `raw` times the fraction, as the nearest whole number; of two equally near, the one further from zero.
pub fn scale(f: Fraction, raw: i64) -> i128
    ensures rounds { IsRound (raw *ℤ pos f.num) f.den result }
    ensures only { (q : ℤ) → IsRound (raw *ℤ pos f.num) f.den q → q ≡ result }
    ensures value { result ≡ round (raw *ℤ pos f.num) f.den }
{
    scaled(f, raw)
}

/// The decimal's value times the fraction, as the nearest whole number; of two equally near, the one further from
/// zero.
pub fn scale_decimal(f: Fraction, d: &Decimal) -> i128
    requires den { f.den ≤ 10 ^ 18 }
    requires digits { d.now.digits < 10 ^ 14 }
    requires places { d.now.places ≤ 12 }
    ensures rounds { IsRound (signed d.now.negative (d.now.digits * f.num)) (10 ^ d.now.places * f.den) result }
    ensures only { (q : ℤ) → IsRound (signed d.now.negative (d.now.digits * f.num)) (10 ^ d.now.places * f.den) q → q ≡ result }
    ensures value { result ≡ round (signed d.now.negative (d.now.digits * f.num)) (10 ^ d.now.places * f.den) }
{
    scaled_decimal(f, d)
}
