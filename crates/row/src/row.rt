// A row of a list, and what a line is read as.
ghost use Rattle.std.specs.Prelude.{◌≡◌, true, ◌≤◌, List, map, ℕ, length};
ghost use Rattle.std.specs.List.{list_all};
ghost use Rattle.text.specs.Columns.{Column, held, longest_line};
ghost use Rattle.text.specs.Scanned.{is_narrow};
ghost use Rattle.row.specs.Parsing.{row_if, parsed_by};

use text::{Fault, Holds, LONGEST_LINE, fault_in};

// A row of one kind of list, by its columns.
pub trait Row: Copy {
    ghost columns: { List Column };

    // What a line says that is such a row.
    ghost row_of: { List ℕ → Self };

    // What the columns hold.
    fn columns() -> &'static [Holds]
        ensures { result.now ≡ map held columns };

    // What a line says, where it is a row. It has no more bytes than a line may have.
    fn read(line: &[u8]) -> Option<Self>
        requires { length line.now ≤ longest_line }
        ensures { result ≡ row_if columns row_of line.now };

    ghost narrow: { list_all is_narrow (map held columns) ≡ true };
}

// What a line of any length says, where it is a row.
fn read<R: Row>(line: &[u8]) -> Option<R>
    ensures { result ≡ row_if R.columns R.row_of line.now }
{
    if LONGEST_LINE < line.len() {
        return None;
    }
    R::read(line)
}

// What a line says, without its CRLF, or why it is no row.
pub fn parse<R: Row>(line: &[u8]) -> Result<R, Fault>
    ensures { result ≡ parsed_by R.columns R.row_of line.now }
{
    match read(line) {
        Some(row) => Ok(row),
        None => Err(fault_in(line, R::columns())),
    }
}
