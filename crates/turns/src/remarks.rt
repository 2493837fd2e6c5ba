// What is to be said of a line besides its answer.
use crate::columns::refused_in;
use crate::faults::NoRow;
use law::Cell;
use lines::MOST_HELD;
use list::Kind;
use quantity::Refusal;
use std::fmt;

// So many first bytes of a line are looked at: all that is held of a long one but its last.
const LOOKED_AT: usize = MOST_HELD - 1;

// The line holds a LF without CR; or it is no row; or it is a record that is refused by a number for a cell or, where there is none, for a coefficient.
#[derive(Clone, Copy)]
pub enum Remark<'a> {
    LoneFeed,
    NoRow(NoRow<'a>),
    Refused(Refusal, Option<Cell>, &'static str),
}

fn name_of(cell: Cell) -> &'static str {
    match cell {
        Cell::Hg => "hg",
        Cell::Ga => "ga",
        Cell::In => "in",
        Cell::Sn => "sn",
        Cell::Zn => "zn",
        Cell::Al => "al",
        Cell::Ag => "ag",
    }
}

impl<'a> fmt::Display for Remark<'a> {
    fn fmt<W: fmt::Write>(&self, f: &mut fmt::Formatter<W>) -> fmt::Result {
        match *self {
            Remark::LoneFeed => f.write_str(
                "it holds a LF without CR, which ends no line, and nothing in it is answered; \
                 to mend the list: sed 's/\\r*$/\\r/;$a\\' LIST",
            ),
            Remark::NoRow(row) => write!(f, "{row}"),
            Remark::Refused(refusal, Some(cell), why) => {
                let number = refusal.number();
                let name = name_of(cell);
                write!(f, "{number}, {name}: {why}")
            }
            Remark::Refused(refusal, None, why) => {
                let number = refusal.number();
                write!(f, "{number}: {why}")
            }
        }
    }
}

// Why a record is refused by a number, where that is to be said.
fn why_refused(refusal: Refusal, cell: Option<Cell>) -> Option<&'static str> {
    if cell.is_none() {
        return match refusal {
            Refusal::BeyondLimit => Some("a coefficient is beyond its limit"),
            _ => None,
        };
    }
    match refusal {
        Refusal::ResistanceOutside => Some("its R or R0 is outside its limits"),
        Refusal::RatioAbove => Some("its ratio is above 4.4"),
        Refusal::CellNotMeasured => {
            Some("the subrange needs this cell, and it was not measured")
        }
        Refusal::Impure => Some("the purity relation is not met"),
        Refusal::BeyondLimit => Some("its deviation is beyond the limit"),
        _ => None,
    }
}

// What is to be said of a line of a list of this kind, given without its CRLF.
pub fn remark_on(kind: Kind, line: &[u8]) -> Option<Remark<'_>> {
    if line.iter().take(LOOKED_AT).any(|b| *b == b'\n') {
        return Some(Remark::LoneFeed);
    }
    match refused_in(kind, line) {
        Ok(refused) => {
            let (refusal, cell) = refused?;
            Some(Remark::Refused(refusal, cell, why_refused(refusal, cell)?))
        }
        Err(fault) => Some(Remark::NoRow(NoRow { kind, line, fault })),
    }
}
