// What a reading answers.
ghost use Rattle.quantity.specs.Outcomes.{Follows};
ghost use Rattle.law.specs.Answers.{stated};
ghost use Rattle.examination.specs.Answering.{read_entry};

use crate::testing::Seen;
use entry::Entry;
use law::Reading;
use quantity::{Nanoohm, Refusal};

// By what the table has of the thermometer.
pub fn reading_answer(table: Seen, held: Entry, r: Nanoohm, r0: Nanoohm) -> Result<Reading, Refusal>
    ensures { Follows (read_entry table.bad held r.0 r0.0) (stated result) }
{
    if table.bad {
        return Err(Refusal::TableBad);
    }
    if held.is_live() {
        return reading::read(held.certificate, r, r0);
    }
    Err(Refusal::NotLive)
}
