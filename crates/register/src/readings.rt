// A reading through the register.
ghost use Rattle.law.specs.Answers.{stated};
ghost use Rattle.register.specs.Reading.{ReadThrough};

use crate::table::{examine, lookup};
use entry::{Entry, Thermometer};
use examination::reading_answer;
use law::Reading;
use quantity::{Nanoohm, Refusal};

// By the thermometer's live certificate, its law and no other.
pub fn read(
    table: &[Entry],
    number: Thermometer,
    r: Nanoohm,
    r0: Nanoohm,
) -> Result<Reading, Refusal>
    ensures { ReadThrough table.now number.0 r.0 r0.0 (stated result) }
{
    let s = examine(table);
    let held = lookup(table, number.0);
    reading_answer(s, held, r, r0)
}
