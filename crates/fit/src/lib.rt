// The fit: the coefficients that the used cells give. Every product or quotient is rounded down once, to 10^-11.
#![tactic(auto)]

ghost use Rattle.std.specs.Prelude.{◌≡◌, [], ◌∷◌, ◌<◌, ◌≤◌, ◌*◌, ◌^◌, false, ltb, pos, nat_abs, ◌+ℤ◌, ◌-ℤ◌, ◌<ℤ◌};
ghost use Rattle.quantity.specs.Quantities.{one};
ghost use Rattle.deviation.specs.Limits.{largest_coefficient};
ghost use Rattle.deviation.specs.Working.{plain_deviation};
ghost use Rattle.fit.specs.Fit.{◌·◌, ◌÷◌, q as q_of, of_one, of_two, of_three, with_silver, fit, beyond as beyond_of};
ghost use Rattle.fit.specs.Room.{Kept, Spread, Roomy, wide, StandFor};

use deviation::{LARGEST_COEFFICIENT, ONE, Places, plain_deviation};
use quantity::Ratio;

// A used cell: x = W - 1 and its deviation.
#[derive(Clone, Copy)]
pub struct Point {
    pub x: i64,
    pub delta: i64,
}

// n x
fn times(n: i64, x: i64) -> i64
    requires { nat_abs n * nat_abs x < 2 ^ 63 }
    ensures { result ≡ n · x }
{
    whole::floor_by(n * x, ONE)
}

// n / x
fn over(n: i64, x: i64) -> i64
    requires { (nat_abs n * one < 2 ^ 63) × (x ≡ pos 0 → ⊥) }
    ensures { result ≡ n ÷ x }
{
    whole::divide_down(n * ONE as i64, x)
}

fn q(p: Point) -> i64
    requires { Kept p }
    ensures { result ≡ q_of p }
{
    over(p.delta, p.x)
}

// What rises from one cell to a higher one, over how far x rises.
fn slope(low: i64, high: i64, p1: Point, p2: Point) -> i64
    requires { (nat_abs low ≤ 1_000_000_000) × (nat_abs high ≤ 1_000_000_000) × Kept p1 × Kept p2 × (p1.x <ℤ p2.x) }
    ensures { result ≡ (high -ℤ low) ÷ (p2.x -ℤ p1.x) }
{
    over(high - low, p2.x - p1.x)
}

pub fn of_one(p1: Point) -> Places
    requires { Roomy (p1 ∷ []) }
    ensures { result ≡ of_one p1 }
{
    Places {
        a: q(p1),
        b: 0,
        c: 0,
        d: 0,
        wal: Ratio(0),
    }
}

pub fn of_two(p1: Point, p2: Point) -> Places
    requires { Roomy (p1 ∷ p2 ∷ []) }
    ensures { result ≡ of_two p1 p2 }
{
    let q1 = q(p1);
    let b = slope(q1, q(p2), p1, p2);
    Places {
        a: q1 - times(b, p1.x),
        b,
        c: 0,
        d: 0,
        wal: Ratio(0),
    }
}

// r12 - c(x1 + x2)
fn coefficient_b(r12: i64, c: i64, p1: Point, p2: Point) -> i64
    requires { (nat_abs r12 ≤ 500_000_000) × (nat_abs c ≤ 500_000_000) × Kept p1 × Kept p2 }
    ensures { result ≡ r12 -ℤ c · (p1.x +ℤ p2.x) }
{
    r12 - times(c, p1.x + p2.x)
}

// q1 - b·x1 - (c·x1)·x1
fn coefficient_a(q1: i64, b: i64, c: i64, p1: Point) -> i64
    requires { (nat_abs q1 ≤ 500_000_000) × (nat_abs b ≤ 3_000_000_000) × (nat_abs c ≤ 500_000_000) × (nat_abs p1.x ≤ 2_500_000_000) }
    ensures { result ≡ q1 -ℤ b · p1.x -ℤ (c · p1.x) · p1.x }
{
    q1 - times(b, p1.x) - times(times(c, p1.x), p1.x)
}

pub fn of_three(p1: Point, p2: Point, p3: Point) -> Places
    requires { Roomy (p1 ∷ p2 ∷ p3 ∷ []) }
    ensures { result ≡ of_three p1 p2 p3 }
{
    let q1 = q(p1);
    let q2 = q(p2);
    let r12 = slope(q1, q2, p1, p2);
    let r23 = slope(q2, q(p3), p2, p3);
    let c = slope(r12, r23, p1, p3);
    let b = coefficient_b(r12, c, p1, p2);
    Places {
        a: coefficient_a(q1, b, c, p1),
        b,
        c,
        d: 0,
        wal: Ratio(0),
    }
}

// Silver's deviation less the working deviation by a, b, c.
fn excess(k: Places, ag: Point) -> i64
    requires { (beyond_of k ≡ false) × Kept ag }
    ensures { result ≡ ag.delta -ℤ plain_deviation k ag.x }
{
    ag.delta - plain_deviation(k, ag.x)
}

// (e/z)/z
fn coefficient_d(e: i64, al: Point, ag: Point) -> i64
    requires { (nat_abs e ≤ 6_000_000_000) × Spread wide (al ∷ ag ∷ []) }
    ensures { result ≡ e ÷ (ag.x -ℤ al.x) ÷ (ag.x -ℤ al.x) }
{
    let z = ag.x - al.x;
    over(over(e, z), z)
}

// d from silver, where a, b, c keep their limit.
fn with_silver(k: Places, al: Point, ag: Point) -> Places
    requires { (beyond_of k ≡ false) × Spread wide (al ∷ ag ∷ []) }
    ensures { result ≡ with_silver k al ag }
{
    let e = excess(k, ag);
    let d = coefficient_d(e, al, ag);
    Places {
        a: k.a,
        b: k.b,
        c: k.c,
        d,
        wal: Ratio(0),
    }
}

fn too_large(value: i64) -> bool
    ensures { result ≡ ltb largest_coefficient (nat_abs value) }
{
    LARGEST_COEFFICIENT < value.unsigned_abs()
}

// Whether a coefficient is beyond its limit. An `any` over the four was tried, and the proof did not close.
pub fn beyond(k: Places) -> bool
    ensures { result ≡ beyond_of k }
{
    too_large(k.a) | too_large(k.b) | too_large(k.c) | too_large(k.d)
}

// Where a, b, c are beyond their limit, so are the four, and d is not worked: it might not fit.
pub fn of_four(p1: Point, p2: Point, p3: Point, p4: Point) -> Places
    requires { Roomy (p1 ∷ p2 ∷ p3 ∷ p4 ∷ []) }
    ensures { StandFor result (fit (p1 ∷ p2 ∷ p3 ∷ p4 ∷ [])) }
{
    let k = of_three(p1, p2, p3);
    if beyond(k) {
        return k;
    }
    with_silver(k, p3, p4)
}
