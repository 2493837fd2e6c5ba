// The tolerance classes, and the tolerance test.
ghost use Rattle.std.specs.Prelude.{◌≡◌, ◌<◌, ◌≤◌, ◌^◌, nat_abs};
ghost use Rattle.quantity.specs.Outcomes.{Follows};
ghost use Rattle.curve.specs.Tolerance.{allows, stated, result_of, test_by_class, tolerance_test};

use crate::comparison::{FIRST, LAST};
use crate::from_ratio::read_by;
use law::Law;
use quantity::{Celsius, Nanoohm, Refusal};

// Whether a thermometer is within its class, its error in steps, which is the curve's step less the bath's, and the law by which it was read.
#[derive(Clone, Copy)]
pub struct ToleranceResult {
    pub law: Law,
    pub passes: bool,
    pub error: i64,
}

// What a class allows: baths up to a last one, the steps at 0 °C, and the thousandths of a step more for each step of the bath from there.
#[derive(Clone, Copy)]
pub struct Class {
    pub top: i64,
    pub fixed: u64,
    pub slope: u64,
}

impl Class {
    pub const A: Class = Class {
        top: 6_500_000,
        fixed: 1_500,
        slope: 2,
    };

    pub const B: Class = Class {
        top: LAST,
        fixed: 3_000,
        slope: 5,
    };
}

// Whether the class allows the error; the limit itself passes.
fn allowed(class: Class, bath: i64, error: i64) -> bool
    requires { (class.fixed ≤ 3_000) × (class.slope ≤ 5) × (nat_abs bath < 2 ^ 32) × (nat_abs error < 2 ^ 32) }
    ensures { result ≡ allows class bath error }
{
    1000 * error.unsigned_abs() <= 1000 * class.fixed + class.slope * bath.unsigned_abs()
}

// The result of a step that was read.
fn result_of(class: Class, bath: i64, step: Celsius) -> ToleranceResult
    requires { (class.fixed ≤ 3_000) × (class.slope ≤ 5) × (nat_abs bath < 2 ^ 31) × (nat_abs step.0 < 2 ^ 31) }
    ensures { (stated (Ok result)).answer ≡ result_of class bath step.0 }
{
    let error = step.0 - bath;
    ToleranceResult {
        law: Law::Curve,
        passes: allowed(class, bath, error),
        error,
    }
}

fn test_by_class(
    class: Class,
    bath: i64,
    r: Nanoohm,
    r0: Nanoohm,
) -> Result<ToleranceResult, Refusal>
    requires { (class.fixed ≤ 3_000) × (class.slope ≤ 5) × (nat_abs class.top < 2 ^ 31) }
    ensures { Follows (test_by_class class bath r.0 r0.0) (stated result) }
{
    if bath < FIRST {
        return Err(Refusal::BelowRange);
    }
    if class.top < bath {
        return Err(Refusal::AboveRange);
    }
    let reading = read_by(r, r0)?;
    Ok(result_of(class, bath, reading.step))
}

// A tolerance test. The class is given by its letter, and not as a `Class`: a letter that names none is refused.
pub fn tolerance_test(
    letter: u8,
    bath: Celsius,
    r: Nanoohm,
    r0: Nanoohm,
) -> Result<ToleranceResult, Refusal>
    ensures { Follows (tolerance_test letter bath.0 r.0 r0.0) (stated result) }
{
    match letter {
        b'A' => test_by_class(Class::A, bath.0, r, r0),
        b'B' => test_by_class(Class::B, bath.0, r, r0),
        _ => Err(Refusal::NameUnknown),
    }
}
