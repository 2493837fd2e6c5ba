// Forward by the curve, from a step to its ratio.
ghost use Rattle.quantity.specs.Outcomes.{Follows};
ghost use Rattle.law.specs.Answers.{stated_forward};
ghost use Rattle.curve.specs.Ways.{forward_step};

use crate::comparison::{FIRST, LAST, nine_decimals};
use law::{ForwardRatio, Law};
use quantity::{Celsius, Ratio, Refusal};

// The ratio that a step has.
pub fn forward(step: Celsius) -> Result<ForwardRatio, Refusal>
    ensures { Follows (forward_step step.0) (stated_forward result) }
{
    let t = step.0;
    if t < FIRST {
        return Err(Refusal::BelowRange);
    }
    if LAST < t {
        return Err(Refusal::AboveRange);
    }
    let place = (t - FIRST) as u64;
    Ok(ForwardRatio {
        law: Law::Curve,
        ratio: Ratio(nine_decimals(place)),
    })
}
