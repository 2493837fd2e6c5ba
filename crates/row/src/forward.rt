// A row of a list of steps to be taken forward: id, law, t and the five places of a certificate.
ghost use Rattle.std.specs.Prelude.{refl};
ghost use Rattle.row.specs.Forward.{columns, row_of};

use crate::digits::DIGITS;
use crate::row::Row;
use certificate::Given;
use deviation::Places;
use law::Name;
use quantity::{Celsius, Ratio};
use text::{Holds, after_id, name_at, number_at, signed_at};

const COLUMNS: [Holds; 8] = [
    Holds::Id,
    Holds::Name,
    Holds::Signed(DIGITS),
    Holds::Signed(DIGITS),
    Holds::Signed(DIGITS),
    Holds::Signed(DIGITS),
    Holds::Signed(DIGITS),
    Holds::Natural(DIGITS),
];

// `names` is how many bytes the first two fields take, with the comma after each.
#[derive(Clone, Copy)]
pub struct ForwardRow {
    pub names: usize,
    pub certificate: Given,
    pub step: Celsius,
}

impl Row for ForwardRow {
    ghost columns = { columns };

    ghost row_of = { row_of };

    ghost narrow = { refl };

    fn columns() -> &'static [Holds] {
        &COLUMNS
    }

    fn read(line: &[u8]) -> Option<Self> {
        let law = name_at(line, after_id(line));
        let t = signed_at(line, law.next, DIGITS);
        let a = signed_at(line, t.next, DIGITS);
        let b = signed_at(line, a.next, DIGITS);
        let c = signed_at(line, b.next, DIGITS);
        let d = signed_at(line, c.next, DIGITS);
        let wal = number_at(line, d.next, DIGITS);
        if wal.next != line.len() + 1 {
            return None;
        }
        Some(ForwardRow {
            names: law.next,
            certificate: Given {
                law: Name(law.value),
                places: Places {
                    a: a.value,
                    b: b.value,
                    c: c.value,
                    d: d.value,
                    wal: Ratio(wal.value),
                },
            },
            step: Celsius(t.value),
        })
    }
}
