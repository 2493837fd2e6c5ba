// How far a thermometer deviates from the reference function: a cell's deviation and its limit, and the deviation functions over the places of a certificate.
#![tactic(auto)]

mod limit;
mod places;
mod working;

pub use limit::{FINE, LARGEST_COEFFICIENT, ONE, cell_deviation, offset, within};
pub use places::Places;
pub use working::{deviation, plain_deviation, wr};
