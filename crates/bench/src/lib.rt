// The answers of the bench's lists: records of ratios or of resistances, steps taken forward, tolerance tests.
#![tactic(auto)]

mod certificates;
mod forward;
mod scratch;
mod tolerances;

pub use certificates::{Records, RecordsByResistances};
pub use forward::Steps;
pub use tolerances::Tolerances;
