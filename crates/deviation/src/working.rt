// The working deviation at a ratio, by the form of a deviation function and the places of a certificate, and Wr, the ratio less its deviation.
ghost use Rattle.std.specs.Prelude.{◌≡◌, [], ◌∷◌, ◌+◌, ◌≤◌, pos, nat_abs};
ghost use Rattle.exact.specs.Polynomial.{rounded};
ghost use Rattle.quantity.specs.Quantities.{one, largest_ratio};
ghost use Rattle.deviation.specs.Limits.{largest_coefficient, Small, Limited};
ghost use Rattle.deviation.specs.Working.{plain_deviation, has_d_term, d_term, deviation as deviation_of, Wr};

use crate::limit::{FINE, ONE, offset};
use crate::places::Places;
use law::Form;
use quantity::Ratio;

// By a, b, c: a·x + b·x² + c·x³, from c inward. ag's d term is not in it.
pub fn plain_deviation(k: Places, x: i64) -> i64
    requires { Small k × (nat_abs x + one ≤ largest_ratio) }
    ensures { result ≡ plain_deviation k x }
{
    let linear = exact::turn(k.c, x, ONE, k.b);
    let square = exact::turn(linear, x, ONE, k.a);
    exact::turn(square, x, ONE, 0)
}

// Whether there is a d term: for ag, at W(Al) and above.
#[tactic(auto, unfolding(crate::specs::Working::has_d_term))]
fn has_d_term(form: Form, k: Places, w: Ratio) -> bool
    ensures { result ≡ has_d_term form k w.0 }
{
    form.to_silver() & (k.wal.0 <= w.0)
}

// (d z) z
fn twice(d: i64, z: i64) -> i64
    requires { (nat_abs d ≤ largest_coefficient) × (nat_abs z ≤ largest_ratio) }
    ensures { result ≡ rounded one z (pos 0) (pos 0 ∷ d ∷ []) }
{
    exact::turn(exact::turn(d, z, ONE, 0), z, ONE, 0)
}

fn d_term(form: Form, k: Places, w: Ratio) -> i64
    requires { Limited form k × (w.0 ≤ largest_ratio) }
    ensures { result ≡ d_term form k w.0 }
{
    if has_d_term(form, k, w) {
        twice(k.d, w.0 as i64 - k.wal.0 as i64)
    } else {
        0
    }
}

pub fn deviation(form: Form, k: Places, w: Ratio) -> i64
    requires { Limited form k × (w.0 ≤ largest_ratio) }
    ensures { result ≡ deviation_of form k w.0 }
{
    plain_deviation(k, offset(w)) + d_term(form, k, w)
}

// The ratio less its deviation, in units of 10^-11.
pub fn wr(form: Form, k: Places, w: Ratio) -> i64
    requires { Limited form k × (w.0 ≤ largest_ratio) }
    ensures { result ≡ Wr form k w.0 }
{
    (FINE * w.0) as i64 - deviation(form, k, w)
}
