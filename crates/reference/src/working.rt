// The working value of the reference function.
ghost use Rattle.std.specs.Prelude.{◌≡◌, pos, ◌≤ℤ◌};
ghost use Rattle.reference.specs.Reference.{working, past_last};

use quantity::Celsius;

// C0 to C9 of the scope document's table.
const C: [i64; 10] = [
    2_781_572_54_000,
    1_646_509_16_000,
    -0_137_143_90_000,
    -0_006_497_67_000,
    -0_002_344_44_000,
    0_005_118_68_000,
    0_001_879_82_000,
    -0_002_044_72_000,
    -0_000_461_22_000,
    0_000_457_24_000,
];

// 481 °C: x is 0 there, and 1 as many steps above.
const MIDDLE: u64 = 4_810_000;

// The working value at a step from 0 to one past the last.
pub fn working_at(step: Celsius) -> i64
    requires { (pos 0 ≤ℤ step.0) × (step.0 ≤ℤ past_last) }
    ensures { result ≡ working step.0 }
{
    let n = step.0 - MIDDLE as i64;
    let mut sum = C[9];
    for c in C[..9].iter().rev() {
        sum = exact::turn(sum, n, MIDDLE, *c);
    }
    sum
}
