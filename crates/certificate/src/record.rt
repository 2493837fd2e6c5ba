// A record of cells; of cell ratios, its tests in their order, and the certificate that it yields.
ghost use Rattle.std.specs.Prelude.{◌≡◌, ◌≤◌, false, length, map};
ghost use Rattle.law.specs.Subranges.{cells};
ghost use Rattle.fit.specs.Room.{Roomy, StandFor};
ghost use Rattle.quantity.specs.Outcomes.{Follows};
ghost use Rattle.certificate.specs.Certificate.{stated};
ghost use Rattle.certificate.specs.Record.{at, measured as measured_by, is_above, is_missing, ratio_above, cell_missing, purity_cell_missing, impure as impure_by, cell_deviates, deviates as deviates_by, point as point_of, fitted as fitted_by, aluminium_ratio, record_of, record_rule};

use crate::soundness::Certificate;
use deviation::{Places, cell_deviation, offset, within};
use fit::{Point, beyond, of_four, of_one, of_three, of_two};
use law::{Cell, Law, Name, Subrange};
use purity::is_pure;
use quantity::{Ratio, Refusal};

// The subrange by its name, and what is given for each cell: a ratio, 0 where it was not measured, or two resistances.
// No Option stands for a cell that was not measured: a record is given with the 0, and `measured` in the definitions says what it means.
#[derive(Clone, Copy, Debug, PartialEq, Eq)]
pub struct Record<T> {
    pub subrange: Name,
    pub mercury: T,
    pub gallium: T,
    pub indium: T,
    pub tin: T,
    pub zinc: T,
    pub aluminium: T,
    pub silver: T,
}

impl<T: Copy> Record<T> {
    pub(crate) fn at(self, cell: Cell) -> T
        ensures { result ≡ at self cell }
    {
        match cell {
            Cell::Hg => self.mercury,
            Cell::Ga => self.gallium,
            Cell::In => self.indium,
            Cell::Sn => self.tin,
            Cell::Zn => self.zinc,
            Cell::Al => self.aluminium,
            Cell::Ag => self.silver,
        }
    }

    // The record of what `f` makes of what is given for each cell.
    pub(crate) fn map<U, F: Fn(T) -> U>(self, f: F) -> Record<U>
        requires { (cell : Cell) → F.pre f (at self cell) }
        ensures subrange { result.subrange ≡ self.subrange }
        ensures cells { (cell : Cell) → F.post f (at self cell) (at result cell) }
    {
        Record {
            subrange: self.subrange,
            mercury: f(self.mercury),
            gallium: f(self.gallium),
            indium: f(self.indium),
            tin: f(self.tin),
            zinc: f(self.zinc),
            aluminium: f(self.aluminium),
            silver: f(self.silver),
        }
    }
}

impl Record<Ratio> {
    // W(Al) where the certificate is to hold it, for ag, and else 0, as the definition `made` has it.
    fn aluminium_ratio(self, subrange: Subrange) -> Ratio
        ensures { result.0 ≡ aluminium_ratio subrange self }
    {
        if subrange.form().to_silver() {
            return self.aluminium;
        }
        Ratio(0)
    }

    pub(crate) fn measured(self, cell: Cell) -> bool
        ensures { result ≡ measured_by self cell }
    {
        0 < self.at(cell).0
    }

    pub(crate) fn is_above(self, cell: Cell) -> bool
        ensures { result ≡ is_above self cell }
    {
        quantity::LARGEST_RATIO < self.at(cell).0
    }

    pub(crate) fn is_missing(self, cell: Cell) -> bool
        ensures { result ≡ is_missing self cell }
    {
        !self.measured(cell)
    }

    // Whether any ratio is above 4.4.
    #[tactic(auto, unfolding(crate::specs::Record::ratio_above))]
    pub(crate) fn ratio_above(self) -> bool
        ensures { result ≡ ratio_above self }
    {
        Cell::ALL.iter().any(|cell| self.is_above(*cell))
    }

    // Whether a cell that the subrange needs was not measured.
    #[tactic(auto, unfolding(crate::specs::Record::cell_missing))]
    pub(crate) fn cell_missing(self, needed: &[Cell]) -> bool
        ensures { result ≡ cell_missing self needed.now }
    {
        needed.iter().any(|cell| self.is_missing(*cell))
    }

    pub(crate) fn purity_cell_missing(self) -> bool
        ensures { result ≡ purity_cell_missing self }
    {
        !(self.measured(Cell::Ga) | self.measured(Cell::Hg))
    }

    // Whether the purity relations are not met.
    pub(crate) fn impure(self, subrange: Subrange) -> bool
        ensures { result ≡ impure_by subrange self }
    {
        let to_silver = subrange.form().to_silver();
        !is_pure(to_silver, self.mercury, self.gallium, self.silver)
    }

    // Whether a cell was measured and its deviation is beyond its limit.
    pub(crate) fn cell_deviates(self, cell: Cell) -> bool
        ensures { result ≡ cell_deviates self cell }
    {
        self.measured(cell) & !within(cell.reference(), self.at(cell))
    }

    #[tactic(auto, unfolding(crate::specs::Record::deviates))]
    fn deviates(self) -> bool
        ensures { result ≡ deviates_by self }
    {
        Cell::ALL.iter().any(|cell| self.cell_deviates(*cell))
    }

    fn point(self, cell: Cell) -> Point
        requires { ratio_above self ≡ false }
        ensures { result ≡ point_of self cell }
    {
        let w = self.at(cell);
        Point {
            x: offset(w),
            delta: cell_deviation(cell.reference(), w),
        }
    }

    // The coefficients from the used cells, of which there are one to four.
    fn fitted(self, used: &[Cell]) -> Places
        requires above { ratio_above self ≡ false }
        requires few { (1 ≤ length used.now) × (length used.now ≤ 4) }
        requires room { Roomy (map (point_of self) used.now) }
        ensures { StandFor result (fitted_by self used.now) }
    {
        match *used {
            [p] => of_one(self.point(p)),
            [p, q] => of_two(self.point(p), self.point(q)),
            [p, q, r] => of_three(self.point(p), self.point(q), self.point(r)),
            [p, q, r, s] => of_four(self.point(p), self.point(q), self.point(r), self.point(s)),
            _ => unreachable!(),
        }
    }

    // Where every test but the last is passed: refused for a coefficient, or the certificate.
    fn certified(self, subrange: Subrange) -> Result<Certificate, Refusal>
        requires { (ratio_above self ≡ false) × (cell_missing self (cells subrange) ≡ false) × (purity_cell_missing self ≡ false) × (impure_by subrange self ≡ false) × (deviates_by self ≡ false) }
        ensures { Follows (record_of subrange self) (stated result) }
    {
        let k = self.fitted(subrange.cells());
        if beyond(k) {
            return Err(Refusal::BeyondLimit);
        }
        let wal = self.aluminium_ratio(subrange);
        Ok(Certificate {
            law: Law::Scale(subrange),
            places: Places { wal, ..k },
        })
    }

    fn tested(self, subrange: Subrange) -> Result<Certificate, Refusal>
        ensures { Follows (record_of subrange self) (stated result) }
    {
        let above = self.ratio_above();
        let missing = self.cell_missing(subrange.cells());
        if above {
            return Err(Refusal::RatioAbove);
        }
        if missing {
            return Err(Refusal::CellNotMeasured);
        }
        if self.purity_cell_missing() {
            return Err(Refusal::PurityCellNotMeasured);
        }
        if self.impure(subrange) {
            return Err(Refusal::Impure);
        }
        if self.deviates() {
            return Err(Refusal::BeyondLimit);
        }
        self.certified(subrange)
    }

    // The certificate that the record yields, or why there is none.
    pub fn certify(self) -> Result<Certificate, Refusal>
        ensures { Follows (record_rule self) (stated result) }
    {
        let subrange = Subrange::named(self.subrange).ok_or(Refusal::NameUnknown)?;
        self.tested(subrange)
    }
}
