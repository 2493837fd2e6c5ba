// A row of a list of tolerance tests: id, class, t, r and r0.
ghost use Rattle.std.specs.Prelude.{refl};
ghost use Rattle.row.specs.Tolerances.{columns, row_of};

use crate::digits::{DIGITS, RESISTANCE_DIGITS};
use crate::row::Row;
use quantity::{Celsius, Nanoohm};
use text::{Holds, after_id, letter_at, number_at, signed_at};

const COLUMNS: [Holds; 5] = [
    Holds::Id,
    Holds::Letter,
    Holds::Signed(DIGITS),
    Holds::Natural(RESISTANCE_DIGITS),
    Holds::Natural(RESISTANCE_DIGITS),
];

// `names` is how many bytes the first two fields take, with the comma after each. The class is the letter that is given: one that names none is refused later.
#[derive(Clone, Copy)]
pub struct ToleranceRow {
    pub names: usize,
    pub class: u8,
    pub bath: Celsius,
    pub r: Nanoohm,
    pub r0: Nanoohm,
}

impl Row for ToleranceRow {
    ghost columns = { columns };

    ghost row_of = { row_of };

    ghost narrow = { refl };

    fn columns() -> &'static [Holds] {
        &COLUMNS
    }

    fn read(line: &[u8]) -> Option<Self> {
        let class = letter_at(line, after_id(line));
        let t = signed_at(line, class.next, DIGITS);
        let r = number_at(line, t.next, RESISTANCE_DIGITS);
        let r0 = number_at(line, r.next, RESISTANCE_DIGITS);
        if r0.next != line.len() + 1 {
            return None;
        }
        Some(ToleranceRow {
            names: class.next,
            class: class.value as u8,
            bath: Celsius(t.value),
            r: Nanoohm(r.value),
            r0: Nanoohm(r0.value),
        })
    }
}
