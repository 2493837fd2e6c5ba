// The quantities of the scope document as types of their own, so that no count is taken for another, and the numbers of the refusals.
#![tactic(auto)]

mod refusal;
mod resistance;
mod temperature;

pub use refusal::Refusal;
pub use resistance::{LARGEST_RATIO, Nanoohm, Ratio, are_within, ratio_of, ratio_within};
pub use temperature::{Celsius, Kelvin};
