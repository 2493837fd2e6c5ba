// A kind of list, and what is answered to a line of it.
ghost use Rattle.std.specs.Prelude.{◌≡◌, true, ◌≤◌, length};
ghost use Rattle.text.specs.Columns.{well_formed, longest_line};
ghost use Rattle.line.specs.Kinds.{Kind as KindOfList, blanks};
ghost use Rattle.line.specs.Lent.{AnsweredAs, AnsweredInto};
ghost use Rattle.line.specs.Writing.{commaed};

use crate::lent::{LineAnswer, no_room, place_fault};
use row::Row;

pub trait Kind {
    type Row: Row;

    ghost kind: { KindOfList };

    // A comma for each of the answer's own columns.
    fn commas() -> &'static [u8]
        ensures { result.now ≡ commaed (blanks kind.own) };

    // Answers a row, which is what the line says, into a lent buffer; nothing where the answer does not fit.
    fn answer_row(line: &[u8], row: Self::Row, out: &mut [u8]) -> Option<LineAnswer>
        requires { (well_formed kind.columns line.now ≡ true) × (row ≡ Self.Row.row_of line.now) }
        ensures { AnsweredAs kind line.now out.old out.new result };

    ghost columns: { Self.Row.columns ≡ kind.columns };

    ghost own: { 1 ≤ length kind.own };

    ghost few: { length (commaed (blanks kind.own)) ≤ longest_line };
}

// Answers one line, given without its CRLF, into a lent buffer; nothing where the answer does not fit.
pub fn place<K: Kind>(line: &[u8], out: &mut [u8]) -> Option<LineAnswer>
    ensures { AnsweredAs K.kind line.now out.old out.new result }
{
    match row::parse::<K::Row>(line) {
        Ok(row) => K::answer_row(line, row, out),
        Err(fault) => place_fault(fault, K::commas(), out),
    }
}

// The same with the number where it does not: 11.
pub fn answer<K: Kind>(line: &[u8], out: &mut [u8]) -> LineAnswer
    ensures { AnsweredInto K.kind line.now out.old out.new result }
{
    place::<K>(line, out).unwrap_or(no_room())
}
