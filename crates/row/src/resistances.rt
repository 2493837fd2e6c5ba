// A row of a list of records given as resistances: id, subrange and, for each cell, its resistance and the water cell's.
ghost use Rattle.std.specs.Prelude.{◌≡◌, refl};
ghost use Rattle.row.specs.Resistances.{columns, pair_at, row_of};

use crate::digits::RESISTANCE_DIGITS;
use crate::row::Row;
use certificate::{Pair, Resistances};
use law::Name;
use quantity::Nanoohm;
use text::{Holds, Scanned, after_id, name_at, number_at};

const COLUMNS: [Holds; 16] = [
    Holds::Id,
    Holds::Name,
    Holds::Natural(RESISTANCE_DIGITS),
    Holds::Natural(RESISTANCE_DIGITS),
    Holds::Natural(RESISTANCE_DIGITS),
    Holds::Natural(RESISTANCE_DIGITS),
    Holds::Natural(RESISTANCE_DIGITS),
    Holds::Natural(RESISTANCE_DIGITS),
    Holds::Natural(RESISTANCE_DIGITS),
    Holds::Natural(RESISTANCE_DIGITS),
    Holds::Natural(RESISTANCE_DIGITS),
    Holds::Natural(RESISTANCE_DIGITS),
    Holds::Natural(RESISTANCE_DIGITS),
    Holds::Natural(RESISTANCE_DIGITS),
    Holds::Natural(RESISTANCE_DIGITS),
    Holds::Natural(RESISTANCE_DIGITS),
];

// `names` is how many bytes the first two fields take, with the comma after each.
#[derive(Clone, Copy)]
pub struct ResistancesRow {
    pub names: usize,
    pub cells: Resistances,
}

// The two resistances of a cell.
fn pair_at(line: &[u8], from: usize) -> Scanned<Pair>
    ensures { result ≡ pair_at line.now from }
{
    let r = number_at(line, from, RESISTANCE_DIGITS);
    let r0 = number_at(line, r.next, RESISTANCE_DIGITS);
    Scanned {
        value: Pair {
            r: Nanoohm(r.value),
            r0: Nanoohm(r0.value),
        },
        next: r0.next,
    }
}

impl Row for ResistancesRow {
    ghost columns = { columns };

    ghost row_of = { row_of };

    ghost narrow = { refl };

    fn columns() -> &'static [Holds] {
        &COLUMNS
    }

    fn read(line: &[u8]) -> Option<Self> {
        let subrange = name_at(line, after_id(line));
        let hg = pair_at(line, subrange.next);
        let ga = pair_at(line, hg.next);
        let in_ = pair_at(line, ga.next);
        let sn = pair_at(line, in_.next);
        let zn = pair_at(line, sn.next);
        let al = pair_at(line, zn.next);
        let ag = pair_at(line, al.next);
        if ag.next != line.len() + 1 {
            return None;
        }
        Some(ResistancesRow {
            names: subrange.next,
            cells: Resistances {
                subrange: Name(subrange.value),
                mercury: hg.value,
                gallium: ga.value,
                indium: in_.value,
                tin: sn.value,
                zinc: zn.value,
                aluminium: al.value,
                silver: ag.value,
            },
        })
    }
}
