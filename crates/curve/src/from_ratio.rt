// Reading by the curve: of a ratio, and of two resistances.
ghost use Rattle.quantity.specs.Outcomes.{Follows};
ghost use Rattle.law.specs.Answers.{stated};
ghost use Rattle.curve.specs.Ways.{read_ratio, read_resistances};

use crate::comparison::FIRST;
use crate::search::find;
use law::{Law, Reading};
use quantity::{Celsius, Nanoohm, Ratio, Refusal};

// Ratios under the first are below -200 °C; the second and those over it are past 850 °C.
const AT_FIRST: u64 = 185_200_800;

const AT_PAST_LAST: u64 = 3_904_811_543;

// What a ratio reads.
pub fn read(w: Ratio) -> Result<Reading, Refusal>
    ensures { Follows (read_ratio w.0) (stated result) }
{
    let ratio = w.0;
    if quantity::LARGEST_RATIO < ratio {
        return Err(Refusal::RatioAbove);
    }
    if ratio < AT_FIRST {
        return Err(Refusal::BelowRange);
    }
    if AT_PAST_LAST <= ratio {
        return Err(Refusal::AboveRange);
    }
    let place = find(ratio);
    Ok(Reading {
        law: Law::Curve,
        step: Celsius(FIRST + place as i64),
    })
}

// What two resistances read.
pub fn read_by(r: Nanoohm, r0: Nanoohm) -> Result<Reading, Refusal>
    ensures { Follows (read_resistances r.0 r0.0) (stated result) }
{
    read(quantity::ratio_of(r, r0)?)
}
