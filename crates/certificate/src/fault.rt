// The first cell at fault in a record that is refused.
ghost use Rattle.std.specs.Prelude.{◌≡◌};
ghost use Rattle.std.specs.List.{find};
ghost use Rattle.law.specs.Cells.{all_cells};
ghost use Rattle.certificate.specs.Record.{is_above, is_missing, cell_deviates};
ghost use Rattle.certificate.specs.Resistances.{cell_outside};
ghost use Rattle.certificate.specs.AtFault.{breaks_purity, at_fault, cell_at_fault, cell_at_fault_by};

use crate::record::Record;
use crate::resistances::Pair;
use law::{Cell, Subrange};
use purity::{by_gallium_or_mercury, by_silver};
use quantity::Ratio;

impl Record<Ratio> {
    // Whether a cell breaks a purity relation that decides.
    fn breaks_purity(self, subrange: Subrange, cell: Cell) -> bool
        ensures { result ≡ breaks_purity subrange self cell }
    {
        let neither_met = !by_gallium_or_mercury(self.mercury, self.gallium);
        match cell {
            Cell::Hg => neither_met & self.measured(Cell::Hg),
            Cell::Ga => neither_met & self.measured(Cell::Ga),
            Cell::Ag => subrange.form().to_silver() & !by_silver(self.silver),
            _ => false,
        }
    }

    // The five searches are not one function with the test as a closure: it would promise something of every test, and `at_fault` would need an answer for each.
    fn first_above(self) -> Option<Cell>
        ensures { result ≡ find (is_above self) all_cells }
    {
        Cell::ALL.iter().copied().find(|cell| self.is_above(*cell))
    }

    fn first_missing(self, needed: &[Cell]) -> Option<Cell>
        ensures { result ≡ find (is_missing self) needed.now }
    {
        needed.iter().copied().find(|cell| self.is_missing(*cell))
    }

    fn first_impure(self, subrange: Subrange) -> Option<Cell>
        ensures { result ≡ find (breaks_purity subrange self) all_cells }
    {
        Cell::ALL
            .iter()
            .copied()
            .find(|cell| self.breaks_purity(subrange, *cell))
    }

    fn first_deviating(self) -> Option<Cell>
        ensures { result ≡ find (cell_deviates self) all_cells }
    {
        Cell::ALL
            .iter()
            .copied()
            .find(|cell| self.cell_deviates(*cell))
    }

    // The cell at fault where the subrange is known: the first that fails the first test that is not passed.
    fn at_fault(self, subrange: Subrange) -> Option<Cell>
        ensures { result ≡ at_fault subrange self }
    {
        let needed = subrange.cells();
        let above = self.ratio_above();
        let missing = self.cell_missing(needed);
        if above {
            return self.first_above();
        }
        if missing {
            return self.first_missing(needed);
        }
        if self.purity_cell_missing() {
            return None;
        }
        if self.impure(subrange) {
            return self.first_impure(subrange);
        }
        self.first_deviating()
    }

    // The first cell at fault, in the test by which the record is refused.
    pub fn faulty_cell(self) -> Option<Cell>
        ensures { result ≡ cell_at_fault self }
    {
        self.at_fault(Subrange::named(self.subrange)?)
    }
}

impl Record<Pair> {
    fn first_outside(self) -> Option<Cell>
        ensures { result ≡ find (cell_outside self) all_cells }
    {
        Cell::ALL
            .iter()
            .copied()
            .find(|cell| self.is_outside(*cell))
    }

    // The first cell at fault, in the test by which the resistances are refused.
    pub fn faulty_cell(self) -> Option<Cell>
        ensures { result ≡ cell_at_fault_by self }
    {
        let subrange = Subrange::named(self.subrange)?;
        if self.outside() {
            return self.first_outside();
        }
        self.ratios().at_fault(subrange)
    }
}
