// The reference function of ITS-90, eq. (10a), worked in whole units of 10^-11, and its inverse.
#![tactic(auto)]

mod inverse;
mod search;
mod working;

pub use inverse::{Outside, invert};
pub use working::working_at;
