// From resistance to temperature.
ghost use Rattle.std.specs.Prelude.{◌≤◌};
ghost use Rattle.quantity.specs.Quantities.{largest_ratio};
ghost use Rattle.quantity.specs.Outcomes.{Follows};
ghost use Rattle.law.specs.declared.laws.Law.{Law};
ghost use Rattle.law.specs.Subranges.{carried};
ghost use Rattle.law.specs.Answers.{stated};
ghost use Rattle.deviation.specs.Limits.{Limited};
ghost use Rattle.reading.specs.Laws.{Keeps};
ghost use Rattle.reading.specs.Reading.{read_ratio, read_certificate, read_given};

use certificate::{Certificate, Given};
use deviation::Places;
use law::{Law, Reading, Subrange};
use quantity::{Nanoohm, Ratio, Refusal};

// A step found on the whole scale is one of the subrange where it is not past its top.
fn by_scale(subrange: Subrange, k: Places, w: Ratio) -> Result<Reading, Refusal>
    requires { Limited (carried subrange).form k × (w.0 ≤ largest_ratio) }
    ensures { Follows (read_ratio (Law.Scale subrange) k w.0) (stated result) }
{
    let step = reference::invert(deviation::wr(subrange.form(), k, w))?;
    let top = subrange.top();
    if top.0 < step.0 {
        return Err(Refusal::AboveRange);
    }
    Ok(Reading {
        law: Law::Scale(subrange),
        step,
    })
}

fn read_ratio(law: Law, k: Places, w: Ratio) -> Result<Reading, Refusal>
    requires { Keeps law k × (w.0 ≤ largest_ratio) }
    ensures { Follows (read_ratio law k w.0) (stated result) }
{
    match law {
        Law::Curve => curve::read(w),
        Law::Scale(subrange) => by_scale(subrange, k, w),
    }
}

// A reading by a certificate. R0 is the resistance at the water triple point by the scale, at 0 °C by the curve.
pub fn read_by(k: Certificate, r: Nanoohm, r0: Nanoohm) -> Result<Reading, Refusal>
    ensures { Follows (read_certificate k r.0 r0.0) (stated result) }
{
    if !k.is_sound() {
        return Err(Refusal::BeyondLimit);
    }
    let w = quantity::ratio_of(r, r0)?;
    read_ratio(k.law, k.places, w)
}

// A reading by a certificate as it was given, its law named.
pub fn read(k: Given, r: Nanoohm, r0: Nanoohm) -> Result<Reading, Refusal>
    ensures { Follows (read_given k r.0 r0.0) (stated result) }
{
    let law = Law::named(k.law).ok_or(Refusal::NameUnknown)?;
    let places = k.places;
    read_by(Certificate { law, places }, r, r0)
}
