// What is said of a line that is no row: it is too long, how many fields it has, or which field breaks its rule and why.
use crate::columns::columns_of;
use crate::fields::{field_of, fields_in};
use crate::voice::Shown;
use crate::why::why_broken;
use list::Kind;
use std::fmt;
use text::{Fault, Holds, LONGEST_LINE};

// What the column with this number, counted from 1, holds.
fn column(kind: Kind, number: usize) -> Option<Holds> {
    columns_of(kind).get(number.checked_sub(1)?).copied()
}

#[derive(Clone, Copy)]
pub struct NoRow<'a> {
    pub kind: Kind,
    pub line: &'a [u8],
    pub fault: Fault,
}

impl<'a> fmt::Display for NoRow<'a> {
    fn fmt<W: fmt::Write>(&self, f: &mut fmt::Formatter<W>) -> fmt::Result {
        match self.fault {
            Fault::TooLong => write!(f, "it has more than {LONGEST_LINE} bytes"),
            Fault::WrongCount => {
                let fields = fields_in(self.line);
                let s = if fields == 1 { "" } else { "s" };
                let columns = columns_of(self.kind).len();
                write!(f, "it has {fields} field{s}, and the header has {columns}")
            }
            Fault::Broken(number) => {
                let title = Shown(field_of(self.kind.header(), number));
                write!(f, "field {number}, {title}: ")?;
                // A fault names a column, so this is always so.
                if let Some(held) = column(self.kind, number) {
                    f.write(why_broken(held, field_of(self.line, number)))?;
                }
                Ok(())
            }
        }
    }
}
