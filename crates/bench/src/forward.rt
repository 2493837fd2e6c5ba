// The answers to steps taken forward: the ratio, or why there is none.
ghost use Rattle.std.specs.Prelude.{◌≡◌, ◌++◌, ◌≤◌, length, refl};
ghost use Rattle.std.proofs.Common.{rules};
ghost use Rattle.whole.specs.Text.{ascii};
ghost use Rattle.text.specs.Columns.{longest_line};
ghost use Rattle.text.specs.Decimal.{decimal};
ghost use Rattle.text.specs.Writing.{Added};
ghost use Rattle.line.specs.Lent.{PlacedAs};
ghost use Rattle.bench.specs.Forward.{steps};
ghost use Rattle.bench.specs.Rooms.{made_in};

use crate::scratch::scratch;
use line::{Kind, LineAnswer};
use quantity::Ratio;
use row::ForwardRow;

fn ratio_text(names: &[u8], w: Ratio, out: &mut [u8]) -> usize
    requires { (length names.now ≤ longest_line) × (length out.old ≡ made_in) }
    ensures { Added out.old 0 (names.now ++ decimal w.0 ++ ascii ",0\r\n") out.new result × (result ≤ made_in) }
{
    let at = text::add(out, 0, names);
    let end = text::add_number(out, at, w.0);
    text::add(out, end, b",0\r\n")
}

fn place_ratio(names: &[u8], w: Ratio, out: &mut [u8]) -> Option<LineAnswer>
    requires { length names.now ≤ longest_line }
    ensures { PlacedAs 0 (names.now ++ decimal w.0 ++ ascii ",0\r\n") out.old out.new result }
{
    let mut made = scratch();
    let n = ratio_text(names, w, &mut made);
    line::place_text(0, &made[..n], out)
}

// The list of steps.
#[derive(Clone, Copy)]
pub struct Steps;

impl Kind for Steps {
    type Row = ForwardRow;

    ghost kind = { steps };

    ghost columns = { refl };

    ghost own = { Prim.search rules };

    ghost few = { Prim.search rules };

    fn commas() -> &'static [u8] {
        b","
    }

    fn answer_row(line: &[u8], row: ForwardRow, out: &mut [u8]) -> Option<LineAnswer> {
        let names = &line[..row.names];
        match reading::forward(row.certificate, row.step) {
            Ok(found) => place_ratio(names, found.ratio, out),
            Err(why) => line::place_refused(names, b",", why.number(), out),
        }
    }
}
