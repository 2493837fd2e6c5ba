// A row of a list of readings: id, law, r, r0 and the five places of a certificate.
ghost use Rattle.std.specs.Prelude.{refl};
ghost use Rattle.row.specs.Readings.{columns, row_of};

use crate::digits::{DIGITS, RESISTANCE_DIGITS};
use crate::row::Row;
use certificate::Given;
use deviation::Places;
use law::Name;
use quantity::{Nanoohm, Ratio};
use text::{Holds, after_id, name_at, number_at, signed_at};

const COLUMNS: [Holds; 9] = [
    Holds::Id,
    Holds::Name,
    Holds::Natural(RESISTANCE_DIGITS),
    Holds::Natural(RESISTANCE_DIGITS),
    Holds::Signed(DIGITS),
    Holds::Signed(DIGITS),
    Holds::Signed(DIGITS),
    Holds::Signed(DIGITS),
    Holds::Natural(DIGITS),
];

// `names` is how many bytes the id and the law take, with the comma after each: they stand at the line's start.
#[derive(Clone, Copy)]
pub struct ReadingRow {
    pub names: usize,
    pub certificate: Given,
    pub r: Nanoohm,
    pub r0: Nanoohm,
}

impl Row for ReadingRow {
    ghost columns = { columns };

    ghost row_of = { row_of };

    ghost narrow = { refl };

    fn columns() -> &'static [Holds] {
        &COLUMNS
    }

    fn read(line: &[u8]) -> Option<Self> {
        let law = name_at(line, after_id(line));
        let r = number_at(line, law.next, RESISTANCE_DIGITS);
        let r0 = number_at(line, r.next, RESISTANCE_DIGITS);
        let a = signed_at(line, r0.next, DIGITS);
        let b = signed_at(line, a.next, DIGITS);
        let c = signed_at(line, b.next, DIGITS);
        let d = signed_at(line, c.next, DIGITS);
        let wal = number_at(line, d.next, DIGITS);
        if wal.next != line.len() + 1 {
            return None;
        }
        Some(ReadingRow {
            names: law.next,
            certificate: Given {
                law: Name(law.value),
                places: Places {
                    a: a.value,
                    b: b.value,
                    c: c.value,
                    d: d.value,
                    wal: Ratio(wal.value),
                },
            },
            r: Nanoohm(r.value),
            r0: Nanoohm(r0.value),
        })
    }
}
