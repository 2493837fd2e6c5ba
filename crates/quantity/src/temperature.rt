// Temperatures are whole steps of 0.1 mK.
ghost use Rattle.std.specs.Prelude.{◌≡◌, pos, ◌≤ℤ◌};
ghost use Rattle.quantity.specs.Quantities.{kelvin_of};

// Steps from 0 °C.
#[derive(Clone, Copy, Debug, PartialEq, Eq, PartialOrd, Ord)]
pub struct Celsius(pub i64);

// Steps from absolute zero.
#[derive(Clone, Copy, Debug, PartialEq, Eq, PartialOrd, Ord)]
pub struct Kelvin(pub u64);

// 0 °C in kelvin steps.
const ICE: u64 = 2_731_500;

impl Celsius {
    // The one passage between the two counts, from absolute zero up.
    pub fn to_kelvin(self) -> Kelvin
        requires { pos 0 ≤ℤ kelvin_of self.0 }
        ensures { pos result.0 ≡ kelvin_of self.0 }
    {
        let size = self.0.unsigned_abs();
        if self.0 < 0 {
            return Kelvin(ICE - size);
        }
        Kelvin(ICE + size)
    }
}
