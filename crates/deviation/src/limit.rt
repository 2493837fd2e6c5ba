// x = W - 1, the deviation W - Wr of a cell, and its limit.
ghost use Rattle.std.specs.Prelude.{◌≡◌, ◌≤◌};
ghost use Rattle.quantity.specs.Quantities.{largest_ratio};
ghost use Rattle.deviation.specs.Limits.{highest_wr, x, δ, within as within_limit};

use quantity::Ratio;

// 1 as a ratio, in units of 10^-9.
pub const ONE: u64 = 1_000_000_000;

// A unit of a ratio in units of a deviation.
pub const FINE: u64 = 100;

// A coefficient's largest size, 0.001.
pub const LARGEST_COEFFICIENT: u64 = 100_000_000;

// W - 1
#[tactic(auto, unfolding(crate::specs::Limits::x))]
pub fn offset(w: Ratio) -> i64
    requires { w.0 ≤ largest_ratio }
    ensures { result ≡ x w.0 }
{
    w.0 as i64 - ONE as i64
}

// W - Wr, by a cell's Wr.
pub fn cell_deviation(wr: u64, w: Ratio) -> i64
    requires { (wr ≤ highest_wr) × (w.0 ≤ largest_ratio) }
    ensures { result ≡ δ wr w.0 }
{
    (FINE * w.0) as i64 - wr as i64
}

// Whether a cell's deviation keeps its limit, |x|/1000, by its Wr. Past 4.4 none does.
pub fn within(wr: u64, w: Ratio) -> bool
    requires { wr ≤ highest_wr }
    ensures { result ≡ within_limit wr w.0 }
{
    w.0 <= quantity::LARGEST_RATIO
        && 1000 * cell_deviation(wr, w).unsigned_abs() <= FINE * offset(w).unsigned_abs()
}
