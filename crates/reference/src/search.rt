// The search between two bounds, which a table or a first guess can narrow.
ghost use Rattle.std.specs.Prelude.{◌≡◌, ◌+◌, ◌<◌, ◌≤◌, ◌^◌, pos, ◌≤ℤ◌, ◌<ℤ◌};
ghost use Rattle.std.specs.Int.Signed.{le_z};
ghost use Rattle.whole.specs.Largest.{Largest};
ghost use Rattle.reference.specs.Reference.{working, last};

use crate::working::working_at;
use quantity::Celsius;

// The largest step whose working value is not above the one given, between one that is known not to be above it and one that is, by halving the steps in
// question: one working value each time, and no more than are allowed.
pub fn search(value: i64, from: u64, to: u64, allowed: u64) -> u64
    requires from_lt_to { (from < to) × (to ≤ 9_617_801) × (to ≤ from + 2 ^ allowed) × (allowed ≤ 24) }
    requires from_bound { (working (pos from) ≤ℤ value) × (value <ℤ working (pos to)) }
    ensures { Largest working (pos 0) last value (pos result) }
{
    whole::last_passing(
        from,
        to,
        allowed,
        |step|
            requires { step ≤ 9_617_801 }
            ensures { result ≡ le_z (working (pos step)) value }
        { working_at(Celsius(step as i64)) <= value },
    )
}
