// The answer to a row of a list of readings.
ghost use Rattle.std.specs.Prelude.{◌++◌, ◌≤◌, length, refl};
ghost use Rattle.std.proofs.Common.{rules};
ghost use Rattle.text.specs.Columns.{longest_line};
ghost use Rattle.text.specs.Decimal.{decimal, signed_decimal};
ghost use Rattle.line.specs.Writing.{read_text};
ghost use Rattle.line.specs.Lent.{PlacedAs};
ghost use Rattle.line.specs.Readings.{readings};

use crate::kind::Kind;
use crate::lent;
use crate::lent::LineAnswer;
use quantity::Celsius;
use row::ReadingRow;

// The names, a sign and a number, for a line that was read.
fn put_read(names: &[u8], sign: &[u8], size: u64, out: &mut [u8]) -> Option<LineAnswer>
    requires { (length names.now ≤ longest_line) × (length sign.now ≤ 1) }
    ensures { PlacedAs 0 (read_text names.now (sign.now ++ decimal size)) out.old out.new result }
{
    let digits = text::width(size);
    let after_names = names.len();
    let after_sign = after_names + sign.len();
    let after_digits = after_sign + digits;
    if out.len() < after_digits + 4 {
        return None;
    }
    text::put(out, 0, names);
    text::put(out, after_names, sign);
    text::put_digits(out, after_sign, size, digits);
    text::put(out, after_digits, b",0\r\n");
    Some(LineAnswer {
        code: 0,
        wrote: after_digits + 4,
    })
}

fn put_step(names: &[u8], step: Celsius, out: &mut [u8]) -> Option<LineAnswer>
    requires { length names.now ≤ longest_line }
    ensures { PlacedAs 0 (read_text names.now (signed_decimal step.0)) out.old out.new result }
{
    let size = step.0.unsigned_abs();
    if step.0 < 0 {
        return put_read(names, b"-", size, out);
    }
    put_read(names, b"", size, out)
}

// The list of readings.
#[derive(Clone, Copy)]
pub struct Readings;

impl Kind for Readings {
    type Row = ReadingRow;

    ghost kind = { readings };

    ghost columns = { refl };

    ghost own = { Prim.search rules };

    ghost few = { Prim.search rules };

    fn commas() -> &'static [u8] {
        b","
    }

    fn answer_row(line: &[u8], row: ReadingRow, out: &mut [u8]) -> Option<LineAnswer> {
        let names = &line[..row.names];
        match reading::read(row.certificate, row.r, row.r0) {
            Ok(reading) => put_step(names, reading.step, out),
            Err(why) => lent::place_refused(names, b",", why.number(), out),
        }
    }
}
