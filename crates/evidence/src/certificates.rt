// Laws, certificates and readings as the programs that are evidence make and print them.
use certificate::Given;
use deviation::Places;
use law::{Law, Name, Reading, Subrange};
use quantity::{Ratio, Refusal};
use std::fmt;

// A certificate as it is given, by its law's name and its places.
pub fn given_by(law: Name, a: i64, b: i64, c: i64, d: i64, wal: u64) -> Given {
    Given {
        law,
        places: Places {
            a,
            b,
            c,
            d,
            wal: Ratio(wal),
        },
    }
}

pub fn law_name(law: Law) -> &'static str {
    match law {
        Law::Curve => "curve",
        Law::Scale(Subrange::Ga) => "ga",
        Law::Scale(Subrange::In) => "in",
        Law::Scale(Subrange::Sn) => "sn",
        Law::Scale(Subrange::Zn) => "zn",
        Law::Scale(Subrange::Al) => "al",
        Law::Scale(Subrange::Ag) => "ag",
    }
}

// A value as these programs print it.
#[derive(Clone, Copy)]
pub struct Said<T>(pub T);

impl fmt::Display for Said<Places> {
    fn fmt<W: fmt::Write>(&self, f: &mut fmt::Formatter<W>) -> fmt::Result {
        let p = self.0;
        write!(f, "{} {} {} {} {}", p.a, p.b, p.c, p.d, p.wal.0)
    }
}

// A refusal is said by its number.
impl fmt::Display for Said<Result<Reading, Refusal>> {
    fn fmt<W: fmt::Write>(&self, f: &mut fmt::Formatter<W>) -> fmt::Result {
        match self.0 {
            Ok(reading) => { write!(f, "{} {}", law_name(reading.law), reading.step.0) }
            Err(why) => write!(f, "refused {}", why.number()),
        }
    }
}

// What an import or a withdrawal answers.
impl fmt::Display for Said<Result<(), Refusal>> {
    fn fmt<W: fmt::Write>(&self, f: &mut fmt::Formatter<W>) -> fmt::Result {
        match self.0 {
            Ok(()) => write!(f, "made"),
            Err(why) => write!(f, "refused {}", why.number()),
        }
    }
}
