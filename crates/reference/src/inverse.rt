// The inverse of the working value.
ghost use Rattle.std.specs.Prelude.{◌≡◌};
ghost use Rattle.reference.specs.Inverse.{Inverted, refusal_of};

use crate::search::search;
use quantity::{Celsius, Refusal};

// Outside the working values: under the one at 0 °C, or at or over the one past the last step.
#[derive(Clone, Copy, Debug, PartialEq, Eq)]
pub enum Outside {
    Below,
    Past,
}

impl From<Outside> for Refusal {
    ghost from_gives = { λ side why. why ≡ refusal_of side };

    fn from(side: Outside) -> Refusal {
        match side {
            Outside::Below => Refusal::BelowRange,
            Outside::Past => Refusal::AboveRange,
        }
    }
}

const PAST_LAST: u64 = 9_617_801;

// The working values at 0 °C and one step past the last.
const AT_ZERO: i64 = 99_996_011_000;

const AT_PAST_LAST: i64 = 428_642_081_165;

// The largest step whose working value is not above the one given, or on which side of all of them the value lies.
#[tactic(auto, using(crate::proofs::Values::at_zero, crate::proofs::Values::at_past_last))]
pub fn invert(value: i64) -> Result<Celsius, Outside>
    ensures { Inverted value result }
{
    if value < AT_ZERO {
        return Err(Outside::Below);
    }
    if AT_PAST_LAST <= value {
        return Err(Outside::Past);
    }
    Ok(Celsius(search(value, 0, PAST_LAST, 24) as i64))
}
