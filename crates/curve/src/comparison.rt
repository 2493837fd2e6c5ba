// The exact ratio, compared and rounded in 64 bits. Steps are counted by their places from -200 °C on, which are natural numbers.
ghost use Rattle.std.specs.Prelude.{◌≡◌, ◌+◌, ◌-◌, ◌*◌, ◌<◌, ◌≤◌, ◌^◌, pos, neg_ℤ};
ghost use Rattle.std.specs.Int.Signed.{le_z};
ghost use Rattle.whole.specs.Floor.{floor};
ghost use Rattle.quantity.specs.Quantities.{largest_ratio};
ghost use Rattle.curve.specs.Curve.{exact, units};
ghost use Rattle.curve.specs.Places.{step_at};

// The curve runs from -200 °C to 850 °C.
pub const FIRST: i64 = -2_000_000;

pub const LAST: i64 = 8_500_000;

// The place of 0 °C, and the one past that of 850 °C.
pub const ZERO: u64 = 2_000_000;

pub const PAST_LAST: u64 = 10_500_001;

// The ratio 1 in units of 10^-18, and what a step and its square count in the same units: A and B.
const ONE: u64 = 1_000_000_000_000_000_000;

const FOR_STEP: u64 = 390_830_000_000;

const FOR_SQUARE: u64 = 5_775;

// hi·10^12 + lo
#[derive(Clone, Copy)]
struct Wide {
    hi: u64,
    lo: u64,
    ghost lo_lt: { lo < 10 ^ 12 },
}

impl Wide {
    fn new(n: u64) -> Wide
        ensures { result.hi * 10 ^ 12 + result.lo ≡ n }
    {
        Wide {
            hi: n / 1_000_000_000_000,
            lo: n % 1_000_000_000_000,
        }
    }

    fn times(self, m: u64) -> Wide
        requires { (self.hi ≤ 60_000_000_000) × (m ≤ 2_000_000) }
        ensures { result.hi * 10 ^ 12 + result.lo ≡ (self.hi * 10 ^ 12 + self.lo) * m }
    {
        let low = Wide::new(self.lo * m);
        Wide {
            hi: self.hi * m + low.hi,
            lo: low.lo,
        }
    }
}

// From 0 °C up: the ratio in units of 10^-18, in which it is whole.
fn risen(n: u64) -> u64
    requires { n ≤ 8_500_001 }
    ensures { exact (pos n) ≡ pos (result * 10 ^ 13) }
{
    ONE + FOR_STEP * n - FOR_SQUARE * (n * n)
}

// How far a ratio is under 1: units of 10^-18, and the rest in units of 10^-31.
#[derive(Clone, Copy)]
struct Fall {
    units: u64,
    rest: u64,
    ghost rest_lt: { rest < 10 ^ 13 },
}

// Below 0 °C, m steps under it. The fourth power passes 64 bits, so that term is worked in two parts.
fn fallen(m: u64) -> Fall
    requires { m ≤ 2_000_000 }
    ensures { (exact (neg_ℤ (pos m)) ≡ pos (10 ^ 31 - (result.units * 10 ^ 13 + result.rest))) × (result.units * 10 ^ 13 + result.rest ≤ 10 ^ 31) }
{
    let x = 4_183 * (m * (m + 1_000_000));
    let q = Wide::new(x).times(m).times(m);
    Fall {
        units: FOR_STEP * m + FOR_SQUARE * (m * m) + q.hi / 10,
        rest: q.hi % 10 * 1_000_000_000_000 + q.lo,
    }
}

// Whether the exact ratio at a place is not above w.
pub fn reached(place: u64, w: u64) -> bool
    requires { (place ≤ 10_500_001) × (w ≤ largest_ratio) }
    ensures { result ≡ le_z (exact (step_at place)) (units w) }
{
    let limit = w * 1_000_000_000;
    if place < ZERO {
        let f = fallen(ZERO - place);
        return ONE <= limit + f.units;
    }
    risen(place - ZERO) <= limit
}

// The exact ratio at a place, rounded down to 10^-9.
pub fn nine_decimals(place: u64) -> u64
    requires { place ≤ 10_500_001 }
    ensures { pos result ≡ floor (exact (step_at place)) (10 ^ 22) }
{
    if place < ZERO {
        let f = fallen(ZERO - place);
        if f.rest == 0 {
            return (ONE - f.units) / 1_000_000_000;
        }
        return (ONE - 1 - f.units) / 1_000_000_000;
    }
    risen(place - ZERO) / 1_000_000_000
}
