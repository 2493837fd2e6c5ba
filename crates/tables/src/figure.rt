// Figures with decimals.
ghost use Rattle.std.specs.Prelude.{◌<◌};

use std::fmt;

// Steps in a degree or a kelvin.
pub const DEGREE: u64 = 10_000;

// A count and the unit that it is divided by, a power of ten above 1: it has as many decimals as the unit has zeros.
#[derive(Drop)]
pub struct Figure<T> {
    pub count: T,
    pub unit: u64,
    ghost divides: { 0 < unit },
}

impl fmt::Display for Figure<u64> {
    fn fmt<W: fmt::Write>(&self, f: &mut fmt::Formatter<W>) -> fmt::Result {
        let decimals = self.unit.ilog10() as usize;
        write!(
            f,
            "{}.{:0decimals$}",
            self.count / self.unit,
            self.count % self.unit
        )
    }
}

impl fmt::Display for Figure<i64> {
    fn fmt<W: fmt::Write>(&self, f: &mut fmt::Formatter<W>) -> fmt::Result {
        let sign = if self.count < 0 { "-" } else { "" };
        let size = Figure {
            count: self.count.unsigned_abs(),
            unit: self.unit,
        };
        write!(f, "{sign}{size}")
    }
}

pub fn hundredths<T>(count: T) -> Figure<T> {
    Figure { count, unit: 100 }
}

// Of steps.
pub fn degrees<T>(count: T) -> Figure<T> {
    Figure {
        count,
        unit: DEGREE,
    }
}
