// The law that a thermometer is read by.
ghost use Rattle.std.specs.Prelude.{◌≡◌};
ghost use Rattle.law.specs.Subranges.{law_named, law_coefficients, law_silver};

use crate::name::Name;
use crate::subrange::Subrange;

#[derive(Clone, Copy, Debug, PartialEq, Eq)]
pub enum Law {
    Curve,
    Scale(Subrange),
}

// The curve's name.
pub const CURVE: Name = Name(0x63_7572_7665);

impl Law {
    pub fn named(name: Name) -> Option<Law>
        ensures { result ≡ law_named name.0 }
    {
        if name == CURVE {
            return Some(Law::Curve);
        }
        Subrange::named(name).map(Law::Scale)
    }

    // How many of a, b, c, d it uses: the curve none.
    pub fn coefficients(self) -> u64
        ensures { result ≡ law_coefficients self }
    {
        match self {
            Law::Curve => 0,
            Law::Scale(s) => s.coefficients(),
        }
    }

    // Whether it is ag.
    pub fn reaches_silver(self) -> bool
        ensures { result ≡ law_silver self }
    {
        match self {
            Law::Curve => false,
            Law::Scale(s) => s.form().to_silver(),
        }
    }
}
