// A record given as resistances, two for each cell, and the certificate that it yields.
ghost use Rattle.std.specs.Prelude.{◌≡◌, false};
ghost use Rattle.quantity.specs.Outcomes.{Follows};
ghost use Rattle.certificate.specs.Certificate.{stated};
ghost use Rattle.certificate.specs.Resistances.{is_given, is_outside, cell_outside, cell_ratio, outside as outside_by, ratios_of, resistances_rule};

use crate::record::Record;
use crate::soundness::Certificate;
use law::{Cell, Subrange};
use quantity::{Nanoohm, Ratio, Refusal, are_within, ratio_within};

// The sensor's resistance in a cell and in the water cell, 0 and 0 where the cell was not measured: it is given so, and `is_given` in the definitions says what it means.
#[derive(Clone, Copy, Debug, PartialEq, Eq)]
pub struct Pair {
    pub r: Nanoohm,
    pub r0: Nanoohm,
}

// A record of two resistances for each cell.
pub type Resistances = Record<Pair>;

impl Pair {
    fn is_given(self) -> bool
        ensures { result ≡ is_given self }
    {
        !((self.r.0 == 0) & (self.r0.0 == 0))
    }

    fn is_outside(self) -> bool
        ensures { result ≡ is_outside self }
    {
        self.is_given() & !are_within(self.r, self.r0)
    }

    fn ratio(self) -> Ratio
        requires { is_outside self ≡ false }
        ensures { result.0 ≡ cell_ratio self }
    {
        if self.is_given() {
            return ratio_within(self.r, self.r0);
        }
        Ratio(0)
    }
}

impl Record<Pair> {
    pub(crate) fn is_outside(self, cell: Cell) -> bool
        ensures { result ≡ cell_outside self cell }
    {
        self.at(cell).is_outside()
    }

    // Whether R or R0 of any cell given is outside its limits.
    #[tactic(auto, unfolding(crate::specs::Resistances::outside_up_to))]
    pub(crate) fn outside(self) -> bool
        ensures { result ≡ outside_by self }
    {
        Cell::ALL.iter().any(|cell| self.is_outside(*cell))
    }

    // The record of the cells' ratios.
    pub(crate) fn ratios(self) -> Record<Ratio>
        requires { outside_by self ≡ false }
        ensures { result ≡ ratios_of self }
    {
        self.map(Pair::ratio)
    }

    // The certificate that the resistances yield, or why there is none.
    pub fn certify(self) -> Result<Certificate, Refusal>
        ensures { Follows (resistances_rule self) (stated result) }
    {
        if Subrange::named(self.subrange).is_none() {
            return Err(Refusal::NameUnknown);
        }
        if self.outside() {
            return Err(Refusal::ResistanceOutside);
        }
        self.ratios().certify()
    }
}
