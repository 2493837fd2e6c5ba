// Forward, from a step to its ratio.
ghost use Rattle.std.specs.Prelude.{◌≡◌, ◌≤◌, pos, ◌≤ℤ◌};
ghost use Rattle.std.specs.Int.Signed.{lt_z};
ghost use Rattle.quantity.specs.Quantities.{largest_ratio};
ghost use Rattle.quantity.specs.Outcomes.{Follows};
ghost use Rattle.law.specs.declared.laws.Law.{Law};
ghost use Rattle.law.specs.Subranges.{carried};
ghost use Rattle.law.specs.Answers.{stated_forward};
ghost use Rattle.reference.specs.Reference.{last};
ghost use Rattle.deviation.specs.Limits.{Limited};
ghost use Rattle.deviation.specs.Working.{Wr};
ghost use Rattle.reading.specs.Forward.{Least, forward_step, forward_certificate, forward_given};

use certificate::{Certificate, Given};
use deviation::Places;
use law::{Form, ForwardRatio, Law, Subrange};
use quantity::{Celsius, Ratio, Refusal};

// The least ratio whose Wr is not under the working value at the step: the one after the last whose Wr is, by halving the ratios in question. 33 times are
// enough.
fn least_ratio(form: Form, k: Places, step: Celsius) -> Ratio
    requires { Limited form k × (pos 0 ≤ℤ step.0) × (step.0 ≤ℤ last) }
    ensures { Least form k step.0 result.0 }
{
    let target = reference::working_at(step);
    let under = whole::last_passing(
        0,
        quantity::LARGEST_RATIO,
        33,
        |w|
            requires { Limited form k × (w ≤ largest_ratio) }
            ensures { result ≡ lt_z (Wr form k w) target }
        { deviation::wr(form, k, Ratio(w)) < target },
    );
    Ratio(under + 1)
}

fn by_scale(subrange: Subrange, k: Places, step: Celsius) -> Result<ForwardRatio, Refusal>
    requires { Limited (carried subrange).form k }
    ensures { Follows (forward_step (Law.Scale subrange) k step.0) (stated_forward result) }
{
    let bottom = subrange.bottom();
    let top = subrange.top();
    if step.0 < bottom.0 {
        return Err(Refusal::BelowRange);
    }
    if top.0 < step.0 {
        return Err(Refusal::AboveRange);
    }
    Ok(ForwardRatio {
        law: Law::Scale(subrange),
        ratio: least_ratio(subrange.form(), k, step),
    })
}

// The ratio of a step by a certificate.
pub fn forward_by(k: Certificate, step: Celsius) -> Result<ForwardRatio, Refusal>
    ensures { Follows (forward_certificate k step.0) (stated_forward result) }
{
    if !k.is_sound() {
        return Err(Refusal::BeyondLimit);
    }
    match k.law {
        Law::Curve => curve::forward(step),
        Law::Scale(subrange) => by_scale(subrange, k.places, step),
    }
}

// The ratio of a step by a certificate as it was given, its law named.
pub fn forward(k: Given, step: Celsius) -> Result<ForwardRatio, Refusal>
    ensures { Follows (forward_given k step.0) (stated_forward result) }
{
    let law = Law::named(k.law).ok_or(Refusal::NameUnknown)?;
    let places = k.places;
    forward_by(Certificate { law, places }, step)
}
