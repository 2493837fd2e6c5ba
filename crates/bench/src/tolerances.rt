// The answers to tolerance tests: pass or fail and the error, or why there is none.
ghost use Rattle.std.specs.Prelude.{◌≡◌, ◌++◌, ◌+◌, ◌≤◌, length, refl};
ghost use Rattle.std.proofs.Common.{rules};
ghost use Rattle.whole.specs.Text.{ascii};
ghost use Rattle.text.specs.Columns.{longest_line};
ghost use Rattle.text.specs.Decimal.{signed_decimal};
ghost use Rattle.text.specs.Writing.{Added};
ghost use Rattle.line.specs.Lent.{PlacedAs};
ghost use Rattle.bench.specs.Tolerances.{tolerances, result_word};
ghost use Rattle.bench.specs.Rooms.{made_in};

use crate::scratch::scratch;
use line::{Kind, LineAnswer};
use row::ToleranceRow;

fn add_result(out: &mut [u8], at: usize, passes: bool) -> usize
    requires { at + 5 ≤ length out.old }
    ensures { Added out.old at (result_word passes ++ ascii ",") out.new result }
{
    if passes {
        return text::add(out, at, b"pass,");
    }
    text::add(out, at, b"fail,")
}

fn result_text(names: &[u8], passes: bool, error: i64, out: &mut [u8]) -> usize
    requires { (length names.now ≤ longest_line) × (length out.old ≡ made_in) }
    ensures { Added out.old 0 (names.now ++ (result_word passes ++ ascii ",") ++ (signed_decimal error ++ ascii ",") ++ ascii "0\r\n") out.new result × (result ≤ made_in) }
{
    let at = text::add(out, 0, names);
    let result = add_result(out, at, passes);
    let end = text::add_signed(out, result, error);
    text::add(out, end, b"0\r\n")
}

fn place_result(names: &[u8], passes: bool, error: i64, out: &mut [u8]) -> Option<LineAnswer>
    requires { length names.now ≤ longest_line }
    ensures { PlacedAs 0 (names.now ++ (result_word passes ++ ascii ",") ++ (signed_decimal error ++ ascii ",") ++ ascii "0\r\n") out.old out.new result }
{
    let mut made = scratch();
    let n = result_text(names, passes, error, &mut made);
    line::place_text(0, &made[..n], out)
}

// The list of tolerance tests.
#[derive(Clone, Copy)]
pub struct Tolerances;

impl Kind for Tolerances {
    type Row = ToleranceRow;

    ghost kind = { tolerances };

    ghost columns = { refl };

    ghost own = { Prim.search rules };

    ghost few = { Prim.search rules };

    fn commas() -> &'static [u8] {
        b",,"
    }

    fn answer_row(line: &[u8], row: ToleranceRow, out: &mut [u8]) -> Option<LineAnswer> {
        let names = &line[..row.names];
        match reading::tolerance_test(row.class, row.bath, row.r, row.r0) {
            Ok(x) => place_result(names, x.passes, x.error, out),
            Err(why) => line::place_refused(names, b",,", why.number(), out),
        }
    }
}
