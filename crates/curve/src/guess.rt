// A guess at the place of a ratio, from which a search starts. Nothing rests on how good it is but the search's length.
ghost use Rattle.std.specs.Prelude.{◌≤◌};
ghost use Rattle.quantity.specs.Quantities.{largest_ratio};

use crate::comparison::ZERO;

// The ratio 1 in units of 10^-9.
const UNIT: u64 = 1_000_000_000;

// A, for a step, in units of 10^-11, and -B/A, for a step, in units of 10^-12.
const SLOPE: u64 = 39_083;

const BEND: u64 = 14_776;

// u v k for a k in units of 10^-12.
fn scaled(u: u64, v: u64, k: u64) -> u64
    requires { (u ≤ 9_000_000) × (v ≤ 9_000_000) × (k ≤ 30_000) }
    ensures { result ≤ 2_430_000 }
{
    u * v / 1_000_000 * k / 1_000_000
}

// The two terms after the first, u, of the inverse of 1 + At + Bt².
fn higher_terms(u: u64) -> (u64, u64)
    requires { u ≤ 9_000_000 }
    ensures { (result.0 ≤ 2_430_000) × (result.1 ≤ 2_430_000) }
{
    let second = scaled(u, u, BEND);
    (second, scaled(second, u, 2 * BEND))
}

// Along the tangent at 0 °C, u steps, and then by two terms of the inverse of 1 + At + Bt²: within 128 steps from -40 °C to 160 °C, and further off elsewhere.
pub fn guess(w: u64) -> u64
    requires { w ≤ largest_ratio }
    ensures { result ≤ 16_000_000 }
{
    if w < UNIT {
        let u = (UNIT - w) * 100 / SLOPE;
        let (second, third) = higher_terms(u);
        return (ZERO + second).saturating_sub(u + third);
    }
    let u = (w - UNIT) * 100 / SLOPE;
    let (second, third) = higher_terms(u);
    ZERO + u + second + third
}
