// The answers to records: a certificate, or why there is none.
ghost use Rattle.std.specs.Prelude.{◌≡◌, ◌++◌, ◌+◌, ◌≤◌, length, refl};
ghost use Rattle.std.proofs.Common.{rules};
ghost use Rattle.whole.specs.Text.{ascii};
ghost use Rattle.text.specs.Columns.{longest_line};
ghost use Rattle.text.specs.Writing.{Added};
ghost use Rattle.line.specs.Lent.{PlacedAs};
ghost use Rattle.line.specs.Writing.{commaed};
ghost use Rattle.bench.specs.Certificates.{records, resistances, places_written, CertificatePlaced};
ghost use Rattle.bench.specs.Rooms.{places_most, made_in};

use crate::scratch::scratch;
use certificate::Certificate;
use deviation::Places;
use line::{Kind, LineAnswer};
use quantity::Refusal;
use row::{RecordRow, ResistancesRow};

// Adds the five places, with a comma after each.
fn add_places(out: &mut [u8], at: usize, k: Places) -> usize
    requires { at + places_most ≤ length out.old }
    ensures { Added out.old at (commaed (places_written k)) out.new result × (result ≤ at + places_most) }
{
    let a = text::add_signed(out, at, k.a);
    let b = text::add_signed(out, a, k.b);
    let c = text::add_signed(out, b, k.c);
    let d = text::add_signed(out, c, k.d);
    let end = text::add_number(out, d, k.wal.0);
    text::add(out, end, b",")
}

fn certificate_text(names: &[u8], k: Places, out: &mut [u8]) -> usize
    requires { (length names.now ≤ longest_line) × (length out.old ≡ made_in) }
    ensures { Added out.old 0 (names.now ++ commaed (places_written k) ++ ascii "0\r\n") out.new result × (result ≤ made_in) }
{
    let at = text::add(out, 0, names);
    let end = add_places(out, at, k);
    text::add(out, end, b"0\r\n")
}

// Writes the answer to a record that became a certificate.
fn place_certificate(names: &[u8], k: Places, out: &mut [u8]) -> Option<LineAnswer>
    requires { length names.now ≤ longest_line }
    ensures { PlacedAs 0 (names.now ++ commaed (places_written k) ++ ascii "0\r\n") out.old out.new result }
{
    let mut made = scratch();
    let n = certificate_text(names, k, &mut made);
    line::place_text(0, &made[..n], out)
}

fn place_answer(
    names: &[u8],
    answer: Result<Certificate, Refusal>,
    out: &mut [u8],
) -> Option<LineAnswer>
    requires { length names.now ≤ longest_line }
    ensures { CertificatePlaced answer names.now out.old out.new result }
{
    match answer {
        Ok(k) => place_certificate(names, k.places, out),
        Err(why) => line::place_refused(names, b",,,,,", why.number(), out),
    }
}

// The list of records of ratios.
#[derive(Clone, Copy)]
pub struct Records;

impl Kind for Records {
    type Row = RecordRow;

    ghost kind = { records };

    ghost columns = { refl };

    ghost own = { Prim.search rules };

    ghost few = { Prim.search rules };

    fn commas() -> &'static [u8] {
        b",,,,,"
    }

    fn answer_row(line: &[u8], row: RecordRow, out: &mut [u8]) -> Option<LineAnswer> {
        place_answer(&line[..row.names], row.cells.certify(), out)
    }
}

// The list of records given as resistances.
#[derive(Clone, Copy)]
pub struct RecordsByResistances;

impl Kind for RecordsByResistances {
    type Row = ResistancesRow;

    ghost kind = { resistances };

    ghost columns = { refl };

    ghost own = { Prim.search rules };

    ghost few = { Prim.search rules };

    fn commas() -> &'static [u8] {
        b",,,,,"
    }

    fn answer_row(line: &[u8], row: ResistancesRow, out: &mut [u8]) -> Option<LineAnswer> {
        place_answer(&line[..row.names], row.cells.certify(), out)
    }
}
