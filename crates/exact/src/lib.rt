// A polynomial with whole coefficients at the fraction n / unit, worked by Horner's rule in whole numbers and rounded down after each product.
#![tactic(auto)]

ghost use Rattle.std.specs.Prelude.{◌≡◌, ◌<◌, ◌+ℤ◌, ◌*ℤ◌};
ghost use Rattle.std.specs.Int.{w64};
ghost use Rattle.std.proofs.Common.{SFits};
ghost use Rattle.whole.specs.Floor.{floor};

// One turn: the sum so far times n, over the unit, rounded down, and the next lower coefficient added.
pub fn turn(sum: i64, n: i64, unit: u64, c: i64) -> i64
    requires { (0 < unit) × SFits w64 (sum *ℤ n) × SFits w64 (floor (sum *ℤ n) unit +ℤ c) }
    ensures { result ≡ floor (sum *ℤ n) unit +ℤ c }
{
    whole::floor_by(sum * n, unit) + c
}
