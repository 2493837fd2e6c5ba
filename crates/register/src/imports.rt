// An import: a list of entries comes into the table, or all of it is refused.
ghost use Rattle.std.specs.Prelude.{◌≡◌};
ghost use Rattle.register.specs.Import.{Tested, placed_all, ImportedAs};

use crate::table::{examine, find, lookup, put};
use entry::Entry;
use examination::{Noted, import_answer, note, nothing_noted};
use quantity::Refusal;

// The tests of a list against a table with so many places left.
pub fn check(table: &[Entry], list: &[Entry], places: u64) -> Noted
    ensures { Tested table.now list.now places result }
{
    let mut s = nothing_noted(places);
    for (k, e) in list.iter().enumerate() {
        let first = find(list, e.number.0);
        let held = lookup(table, e.number.0);
        s = note(s, *e, k, first, held);
    }
    s
}

// The entries come in, in list order.
pub fn place_all(table: &mut [Entry], list: &[Entry])
    ensures { table.new ≡ placed_all table.old list.now }
{
    for e in list {
        let held = lookup(table, e.number.0);
        put(table, held.number.0, held.joined(*e));
    }
}

// Of each thermometer the higher serial with its certificate and the higher mark are kept. A refused import changes nothing.
pub fn import(table: &mut [Entry], list: &[Entry]) -> Result<(), Refusal>
    ensures { ImportedAs table.old list.now result table.new }
{
    let s = examine(table);
    let l = check(table, list, s.places);
    import_answer(s, l)?;
    place_all(table, list);
    Ok(())
}
