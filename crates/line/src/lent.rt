// Texts in a lent buffer, and what is said of them.
ghost use Rattle.std.specs.Prelude.{◌≡◌, ◌+◌, ◌≤◌, length};
ghost use Rattle.line.specs.Lent.{PlacedAs};
ghost use Rattle.text.specs.Columns.{longest_line};
ghost use Rattle.quantity.specs.Refusals.{number_of};
ghost use Rattle.text.specs.declared.columns.Fault.TheVariants.{Broken};
ghost use Rattle.line.specs.Kinds.{refusal_of};
ghost use Rattle.line.specs.Writing.{refused_text, fault_text, without_room};

use quantity::Refusal;
use text::Fault;

// What was answered to a line: the number, 0 where the line is read, and how many bytes of the buffer were written. The
// number is no Refusal: it is the line's last column, and what is promised of an answer (`Placed`, `OneAnswerInto`) and of a tally is said by it.
#[derive(Clone, Copy)]
pub struct LineAnswer {
    pub code: u8,
    pub wrote: usize,
}

// What is said where the buffer is too short.
pub fn no_room() -> LineAnswer
    ensures { result ≡ without_room }
{
    LineAnswer {
        code: Refusal::BufferShort.number(),
        wrote: 0,
    }
}

// Writes a text that stands for a line with this number, or nothing where the buffer is too short.
pub fn place_text(number: u8, text: &[u8], out: &mut [u8]) -> Option<LineAnswer>
    ensures { PlacedAs number text.now out.old out.new result }
{
    if out.len() < text.len() {
        return None;
    }
    text::put(out, 0, text);
    Some(LineAnswer {
        code: number,
        wrote: text.len(),
    })
}

// Writes the answer to a refused row: its names, a comma for each of the answer's own columns, and the number.
pub fn place_refused(names: &[u8], commas: &[u8], number: u8, out: &mut [u8]) -> Option<LineAnswer>
    requires { (length names.now ≤ longest_line) × (length commas.now ≤ longest_line) }
    ensures { PlacedAs number (refused_text names.now commas.now number) out.old out.new result }
{
    let digits = text::width(number as u64);
    let after_names = names.len();
    let after_commas = after_names + commas.len();
    let after_digits = after_commas + digits;
    if out.len() < after_digits + 2 {
        return None;
    }
    text::put(out, 0, names);
    text::put(out, after_names, commas);
    text::put_digits(out, after_commas, number as u64, digits);
    text::put(out, after_digits, b"\r\n");
    let code = number;
    let wrote = after_digits + 2;
    Some(LineAnswer { code, wrote })
}

// Room for the two question marks and a number.
const NAMES: usize = 24;

// The number of the field that breaks its rule stands after the names, in the first own column.
fn place_broken(field: usize, commas: &[u8], out: &mut [u8]) -> Option<LineAnswer>
    requires { length commas.now ≤ longest_line }
    ensures { PlacedAs (number_of (refusal_of (Broken field))) (fault_text (Broken field) commas.now) out.old out.new result }
{
    let mut names = [0u8; NAMES];
    let at = text::add(&mut names, 0, b"?,?,");
    let end = text::add_number(&mut names, at, field as u64);
    place_refused(&names[..end], commas, Refusal::FieldBroken.number(), out)
}

// Writes the answer to a line that is no row: `commas` has a comma for each of the answer's own columns.
pub fn place_fault(fault: Fault, commas: &[u8], out: &mut [u8]) -> Option<LineAnswer>
    requires { length commas.now ≤ longest_line }
    ensures { PlacedAs (number_of (refusal_of fault)) (fault_text fault commas.now) out.old out.new result }
{
    match fault {
        Fault::TooLong => place_refused(b"?,?,", commas, Refusal::LineTooLong.number(), out),
        Fault::WrongCount => place_refused(b"?,?,", commas, Refusal::WrongFieldCount.number(), out),
        Fault::Broken(field) => place_broken(field, commas, out),
    }
}
