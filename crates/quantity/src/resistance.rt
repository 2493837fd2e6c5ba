// Resistances, ratios, and the ratio of two resistances.
ghost use Rattle.std.specs.Prelude.{◌≡◌, ◌&&◌, true, ◌+◌, ◌*◌, ◌<◌, ◌≤◌, ◌^◌, leb};
ghost use Rattle.quantity.specs.Quantities.{largest_resistance, least_divisor, is_reading, is_divisor, ratio_of};
ghost use Rattle.quantity.specs.Outcomes.{Follows};
ghost use Rattle.quantity.specs.Ratios.{ratio_rule, stated};

use crate::refusal::Refusal;

// Whole nanoohms.
#[derive(Clone, Copy, Debug, PartialEq, Eq, PartialOrd, Ord)]
pub struct Nanoohm(pub u64);

// Whole units of 10^-9.
#[derive(Clone, Copy, Debug, PartialEq, Eq, PartialOrd, Ord)]
pub struct Ratio(pub u64);

const LARGEST: u64 = 10_000_000_000_000;

const LEAST_DIVISOR: u64 = 100_000_000;

// 4.4
pub const LARGEST_RATIO: u64 = 4_400_000_000;

// A quotient, and what is left.
#[derive(Clone, Copy)]
struct Divided {
    quotient: u64,
    left: u64,
}

// n / d by shift and subtract, as at school but in binary. Each turn doubles what is left and takes the divisor, which stands as many places up as there are
// turns, away where it goes. The digits of the quotient come in the places that doubling sets free: so x is what is left, and below it the quotient. To take
// away one less than the divisor is to put the digit 1 there.
fn divide(n: u64, d: u64, turns: u64) -> Divided
    requires { (turns < 64) × (d * 2 ^ turns < 2 ^ 63) × (n < d * 2 ^ turns) }
    ensures { (result.quotient * d + result.left ≡ n) × (result.left < d) × (result.quotient < 2 ^ turns) }
{
    let divisor = d << turns;
    let mut x = n;
    for done in 0..turns {
        x = x << 1;
        if divisor <= x {
            x -= divisor - 1;
        }
    }
    let left = x >> turns;
    Divided {
        quotient: x - (left << turns),
        left,
    }
}

// Three decimals more.
fn three_more(before: Divided, d: u64) -> Divided
    requires { (before.left < d) × (d ≤ largest_resistance) × (before.quotient < 2 ^ 50) }
    ensures { (result.quotient * d + result.left ≡ (before.quotient * d + before.left) * 1000) × (result.left < d)
        × (result.quotient < before.quotient * 1000 + 2 ^ 10) }
{
    let digits = divide(before.left * 1000, d, 10);
    Divided {
        quotient: before.quotient * 1000 + digits.quotient,
        left: digits.left,
    }
}

// How many whole times R0 goes in R. Most readings have less than 8, which takes 3 turns; 17 are enough for all.
fn whole_times(r: u64, r0: u64) -> Divided
    requires { (r ≤ largest_resistance) × (least_divisor ≤ r0) × (r0 ≤ largest_resistance) }
    ensures { (result.quotient * r0 + result.left ≡ r) × (result.left < r0) × (result.quotient < 2 ^ 17) }
{
    if r < r0 * 8 {
        return divide(r, r0, 3);
    }
    divide(r, r0, 17)
}

// R/R0 in units of 10^-9, to the nearest, a half upward: what is left after nine decimals decides. R times 10^9 would pass 64 bits, so decimals come by threes.
fn nearest_ratio(r: u64, r0: u64) -> u64
    requires { (r ≤ largest_resistance) × (least_divisor ≤ r0) × (r0 ≤ largest_resistance) }
    ensures { result ≡ ratio_of r r0 }
{
    let three = three_more(whole_times(r, r0), r0);
    let nine = three_more(three_more(three, r0), r0);
    if nine.left * 2 < r0 {
        return nine.quotient;
    }
    nine.quotient + 1
}

// Whether R and R0 are both within their limits.
pub fn are_within(r: Nanoohm, r0: Nanoohm) -> bool
    ensures { result ≡ (is_reading r.0 && is_divisor r0.0) }
{
    (1..=LARGEST).contains(&r.0) & (LEAST_DIVISOR..=LARGEST).contains(&r0.0)
}

// The ratio of two resistances within their limits, also one above 4.4.
pub fn ratio_within(r: Nanoohm, r0: Nanoohm) -> Ratio
    requires { (is_reading r.0 && is_divisor r0.0) ≡ true }
    ensures { result.0 ≡ ratio_of r.0 r0.0 }
{
    Ratio(nearest_ratio(r.0, r0.0))
}

// The ratio of two resistances.
pub fn ratio_of(r: Nanoohm, r0: Nanoohm) -> Result<Ratio, Refusal>
    ensures { Follows (ratio_rule r.0 r0.0) (stated result) }
{
    if !are_within(r, r0) {
        return Err(Refusal::ResistanceOutside);
    }
    let w = ratio_within(r, r0);
    if LARGEST_RATIO < w.0 {
        return Err(Refusal::RatioAbove);
    }
    Ok(w)
}
