// The places of a lent table, and its test.
ghost use Rattle.std.specs.Prelude.{◌≡◌};
ghost use Rattle.std.specs.List.{position};
ghost use Rattle.register.specs.Table.{has, first_at, entry_of, put as put_first, bad_table, places};

use entry::Entry;
use examination::{Seen, nothing_seen, see};

fn place(entries: &[Entry], number: u64) -> Option<usize>
    ensures { result ≡ position (has number) entries.now }
{
    entries.iter().position(|e| e.number.0 == number)
}

// The place of a number in a table or a list: the first that has it, or the length.
pub fn find(entries: &[Entry], number: u64) -> usize
    ensures { result ≡ first_at entries.now number }
{
    place(entries, number).unwrap_or(entries.len())
}

// What the table has of a number, or a free place where it has nothing: the promises of a table are made with that entry (`entry_of`).
pub fn lookup(table: &[Entry], number: u64) -> Entry
    ensures { result ≡ entry_of table.now number }
{
    let i = find(table, number);
    if i < table.len() {
        return table[i];
    }
    Entry::free()
}

// The first place that has a number takes the entry. Where none has, nothing changes.
pub fn put(table: &mut [Entry], number: u64, e: Entry)
    ensures { table.new ≡ put_first table.old number e }
{
    let i = find(table, number);
    if i < table.len() {
        table[i] = e;
    }
}

// Whether the table holds a thermometer twice or a bad certificate, and how many places are free.
pub fn examine(table: &[Entry]) -> Seen
    ensures { (result.bad ≡ bad_table table.now) × (result.places ≡ places table.now) }
{
    let mut s = nothing_seen();
    for (i, e) in table.iter().enumerate() {
        let first = find(table, e.number.0);
        s = see(s, *e, i, first);
    }
    s
}
