// Names, fixed-point cells, subranges and laws, and answers that name the law by which they were given.
#![tactic(auto)]

mod answer;
mod cell;
mod laws;
mod name;
mod subrange;

pub use answer::{ForwardRatio, Reading};
pub use cell::Cell;
pub use laws::{CURVE, Law};
pub use name::Name;
pub use subrange::{Ag, Al, Carries, Form, Ga, In, Sn, Subrange, Zn};
