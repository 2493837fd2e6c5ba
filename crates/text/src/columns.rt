// What the columns of a list hold, and why a line is no row of them.
ghost use Rattle.std.specs.Prelude.{◌≡◌, true, false};
ghost use Rattle.std.specs.Option.{is_none};
ghost use Rattle.std.specs.List.{list_all};
ghost use Rattle.text.specs.Columns.{rule_of, fault_by};
ghost use Rattle.text.specs.Scanned.{next_at, commas_in, first_lost, is_narrow};

use crate::field::LONGEST_LINE;
use crate::name::{id_at, letter_at, name_at};
use crate::number::{number_at, signed_at};

// An id, a name, a letter, a number from 0 up or a number of either sign, these two of at most so many digits.
#[derive(Clone, Copy)]
pub enum Holds {
    Id,
    Name,
    Letter,
    Natural(usize),
    Signed(usize),
}

// The line is too long, it has not as many fields as there are columns, or the field with this number, counted from 1, breaks its rule.
#[derive(Clone, Copy)]
pub enum Fault {
    TooLong,
    WrongCount,
    Broken(usize),
}

pub fn commas_in(line: &[u8]) -> usize
    ensures { result ≡ commas_in line.now }
{
    line.iter().filter(|b| **b == b',').count()
}

// Where the field after one that starts at an offset of the line starts.
fn next_field(line: &[u8], from: usize, held: Holds) -> usize
    requires { is_narrow held ≡ true }
    ensures { result ≡ next_at (rule_of held) line.now from }
{
    match held {
        Holds::Id => id_at(line, from),
        Holds::Name => name_at(line, from).next,
        Holds::Letter => letter_at(line, from).next,
        Holds::Natural(most) => number_at(line, from, most).next,
        Holds::Signed(most) => signed_at(line, from, most).next,
    }
}

// The first column whose field breaks its rule.
fn first_broken(line: &[u8], columns: &[Holds]) -> Option<Fault>
    requires { list_all is_narrow columns.now ≡ true }
    ensures { result ≡ first_lost line.now 1 columns.now 0 }
{
    let mut from = 0;
    for (kept, column) in columns.iter().enumerate() {
        let next = next_field(line, from, *column);
        if line.len() + 1 < next {
            return Some(Fault::Broken(kept + 1));
        }
        from = next;
    }
    None
}

// Why a line is no row of the columns, if it is none.
pub fn fault_of(line: &[u8], columns: &[Holds]) -> Option<Fault>
    requires { list_all is_narrow columns.now ≡ true }
    ensures { result ≡ fault_by columns.now line.now }
{
    if LONGEST_LINE < line.len() {
        return Some(Fault::TooLong);
    }
    if commas_in(line) + 1 != columns.len() {
        return Some(Fault::WrongCount);
    }
    first_broken(line, columns)
}

// The same of a line that is known to be none.
pub fn fault_in(line: &[u8], columns: &[Holds]) -> Fault
    requires { (list_all is_narrow columns.now ≡ true) × (is_none (fault_by columns.now line.now) ≡ false) }
    ensures { fault_by columns.now line.now ≡ Some result }
{
    fault_of(line, columns).unwrap()
}
