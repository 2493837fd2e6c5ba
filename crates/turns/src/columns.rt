// The columns of a list of a kind, and what the crates below say of a line of it.
ghost use Rattle.std.specs.Prelude.{◌≡◌, true};
ghost use Rattle.std.specs.List.{list_all};
ghost use Rattle.text.specs.Scanned.{is_narrow};

use certificate::Certificate;
use law::Cell;
use list::Kind;
use quantity::Refusal;
use row::{ForwardRow, ReadingRow, RecordRow, ResistancesRow, Row, ToleranceRow, parse};
use text::{Fault, Holds, fault_of};

// What the columns of a list of a kind hold.
pub fn columns_of(kind: Kind) -> &'static [Holds]
    ensures { list_all is_narrow result.now ≡ true }
{
    match kind {
        Kind::Readings => ReadingRow::columns(),
        Kind::Records => RecordRow::columns(),
        Kind::Resistances => ResistancesRow::columns(),
        Kind::Steps => ForwardRow::columns(),
        Kind::Tolerances => ToleranceRow::columns(),
    }
}

// By what a record is refused, and the first cell at fault, if there is one.
pub type Refused = (Refusal, Option<Cell>);

fn of_record(answer: Result<Certificate, Refusal>, faulty: Option<Cell>) -> Option<Refused> {
    answer.err().map(|refusal| (refusal, faulty))
}

fn of_ratios(line: &[u8]) -> Result<Option<Refused>, Fault> {
    let cells = parse::<RecordRow>(line)?.cells;
    Ok(of_record(cells.certify(), cells.faulty_cell()))
}

fn of_resistances(line: &[u8]) -> Result<Option<Refused>, Fault> {
    let cells = parse::<ResistancesRow>(line)?.cells;
    Ok(of_record(cells.certify(), cells.faulty_cell()))
}

// A line that is no record. The parser of readings is left to the answers: what is called once, the compiler builds in.
fn of_other(kind: Kind, line: &[u8]) -> Result<Option<Refused>, Fault> {
    match fault_of(line, columns_of(kind)) {
        Some(fault) => Err(fault),
        None => Ok(None),
    }
}

// By what a line of a list of this kind, given without its CRLF, is refused, if it is a record that is; or why it is no row.
pub fn refused_in(kind: Kind, line: &[u8]) -> Result<Option<Refused>, Fault> {
    match kind {
        Kind::Records => of_ratios(line),
        Kind::Resistances => of_resistances(line),
        Kind::Readings | Kind::Steps | Kind::Tolerances => of_other(kind, line),
    }
}
