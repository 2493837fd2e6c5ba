// Quotients of signed whole numbers, rounded down, also below zero as everywhere in this project, and the search by halving.
#![tactic(auto)]

ghost use Rattle.std.specs.Prelude.{◌≡◌, ◌<◌, pos, neg_ℤ};
ghost use Rattle.std.specs.Int.{w64};
ghost use Rattle.std.proofs.Common.{SFits};
ghost use Rattle.whole.specs.Floor.{floor, quotient};

mod halving;

pub use halving::last_passing;

// z / d, rounded down. By cases, since a divisor from 2^63 up is no i64.
pub fn floor_by(z: i64, d: u64) -> i64
    requires { 0 < d }
    ensures { result ≡ floor z d }
{
    if 0 <= z {
        return (z as u64 / d) as i64;
    }
    -1 - ((-1 - z) as u64 / d) as i64
}

// -z / d, rounded down.
fn floor_negated(z: i64, d: u64) -> i64
    requires { (0 < d) × SFits w64 (floor (neg_ℤ z) d) }
    ensures { result ≡ floor (neg_ℤ z) d }
{
    if z <= 0 {
        return (z.unsigned_abs() / d) as i64;
    }
    -1 - ((z - 1) as u64 / d) as i64
}

// z / d for a divisor of either sign, rounded down. Only -2^63 over -1 does not fit.
pub fn divide_down(z: i64, d: i64) -> i64
    requires { (d ≡ pos 0 → ⊥) × SFits w64 (quotient z d) }
    ensures { result ≡ quotient z d }
{
    if 0 <= d {
        return floor_by(z, d as u64);
    }
    floor_negated(z, d.unsigned_abs())
}
