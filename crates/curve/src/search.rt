// The largest place whose exact ratio is not above a ratio.
ghost use Rattle.std.specs.Prelude.{◌≡◌, ◌+◌, ◌^◌, ◌≤◌, ◌<◌, ◌≤ℤ◌, ◌<ℤ◌};
ghost use Rattle.std.specs.Int.Signed.{le_z};
ghost use Rattle.whole.specs.Largest.{Largest};
ghost use Rattle.quantity.specs.Quantities.{largest_ratio};
ghost use Rattle.curve.specs.Curve.{exact, units, first, last, past_last};
ghost use Rattle.curve.specs.Places.{step_at};

use crate::comparison::{PAST_LAST, reached};
use crate::guess::guess;

// How far from a guess the ends of its search are.
const NEAR: u64 = 128;

// The largest place whose exact ratio is not above w, between two that are known not to be above it and to be above it, by halving: one exact ratio each
// time, and no more than are allowed.
fn search(from: u64, to: u64, w: u64, allowed: u64) -> u64
    requires from_lt_to { (from < to) × (to ≤ 10_500_001) × (to ≤ from + 2 ^ allowed) × (allowed ≤ 24) }
    requires w_le_largest_ratio { (w ≤ largest_ratio) × (exact (step_at from) ≤ℤ units w) × (units w <ℤ exact (step_at to)) }
    ensures { Largest exact first last (units w) (step_at result) }
{
    whole::last_passing(
        from,
        to,
        allowed,
        |place|
            requires { (place ≤ 10_500_001) × (w ≤ largest_ratio) }
            ensures { result ≡ le_z (exact (step_at place)) (units w) }
        { reached(place, w) },
    )
}

// A search about a guess, where the guess is good, takes ten exact ratios, and else up to two more than a search of all places. Any guess is allowed, since both
// ends are tried.
pub fn find(w: u64) -> u64
    requires { (w ≤ largest_ratio) × (exact first ≤ℤ units w) × (units w <ℤ exact past_last) }
    ensures { Largest exact first last (units w) (step_at result) }
{
    let place = guess(w);
    if NEAR <= place
        && place + NEAR <= PAST_LAST
        && reached(place - NEAR, w)
        && !reached(place + NEAR, w)
    {
        return search(place - NEAR, place + NEAR, w, 8);
    }
    search(0, PAST_LAST, w, 24)
}
