// How many lines of a list ended, and how they were answered.
ghost use Rattle.std.specs.Prelude.{◌≡◌, []};
ghost use Rattle.list.specs.Tallies.{is_faulty, tally_of, with_line, Countable};

use quantity::Refusal;

// All lines that ended, those of them that were refused, and those of these that are faulty: no rows, or no header. A header is a line too. After a wrong header
// nothing is answered any more, and each line counts with the number 0.
#[derive(Clone, Copy)]
pub struct Tally {
    pub lines: usize,
    pub refused: usize,
    pub faulty: usize,
}

pub fn no_lines() -> Tally
    ensures { result ≡ tally_of [] }
{
    Tally {
        lines: 0,
        refused: 0,
        faulty: 0,
    }
}

fn is_faulty(number: u8) -> bool
    ensures { result ≡ is_faulty number }
{
    (number == Refusal::LineTooLong.number())
        | (number == Refusal::WrongFieldCount.number())
        | (number == Refusal::FieldBroken.number())
        | (number == Refusal::WrongHeader.number())
}

impl Tally {
    // With one line more, to which this number was given.
    pub(crate) fn with_line(self, number: u8) -> Tally
        requires { Countable self }
        ensures { result ≡ with_line self number }
    {
        let lines = self.lines + 1;
        if number == 0 {
            return Tally { lines, ..self };
        }
        let refused = self.refused + 1;
        if is_faulty(number) {
            return Tally {
                lines,
                refused,
                faulty: self.faulty + 1,
            };
        }
        Tally {
            lines,
            refused,
            ..self
        }
    }
}
