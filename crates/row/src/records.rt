// A row of a list of records: id, subrange and a ratio for each cell.
ghost use Rattle.std.specs.Prelude.{refl};
ghost use Rattle.row.specs.Records.{columns, row_of};

use crate::digits::DIGITS;
use crate::row::Row;
use certificate::Record;
use law::Name;
use quantity::Ratio;
use text::{Holds, after_id, name_at, number_at};

const COLUMNS: [Holds; 9] = [
    Holds::Id,
    Holds::Name,
    Holds::Natural(DIGITS),
    Holds::Natural(DIGITS),
    Holds::Natural(DIGITS),
    Holds::Natural(DIGITS),
    Holds::Natural(DIGITS),
    Holds::Natural(DIGITS),
    Holds::Natural(DIGITS),
];

// `names` is how many bytes the first two fields take, with the comma after each.
#[derive(Clone, Copy)]
pub struct RecordRow {
    pub names: usize,
    pub cells: Record<Ratio>,
}

impl Row for RecordRow {
    ghost columns = { columns };

    ghost row_of = { row_of };

    ghost narrow = { refl };

    fn columns() -> &'static [Holds] {
        &COLUMNS
    }

    fn read(line: &[u8]) -> Option<Self> {
        let subrange = name_at(line, after_id(line));
        let hg = number_at(line, subrange.next, DIGITS);
        let ga = number_at(line, hg.next, DIGITS);
        let indium = number_at(line, ga.next, DIGITS);
        let sn = number_at(line, indium.next, DIGITS);
        let zn = number_at(line, sn.next, DIGITS);
        let al = number_at(line, zn.next, DIGITS);
        let ag = number_at(line, al.next, DIGITS);
        if ag.next != line.len() + 1 {
            return None;
        }
        Some(RecordRow {
            names: subrange.next,
            cells: Record {
                subrange: Name(subrange.value),
                mercury: Ratio(hg.value),
                gallium: Ratio(ga.value),
                indium: Ratio(indium.value),
                tin: Ratio(sn.value),
                zinc: Ratio(zn.value),
                aluminium: Ratio(al.value),
                silver: Ratio(ag.value),
            },
        })
    }
}
