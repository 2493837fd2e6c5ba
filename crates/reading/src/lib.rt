// Readings by the scale or by the curve, forward from a step to its ratio, and tolerance tests. Each answer says by which law it was given.
#![tactic(auto)]

mod from_resistance;
mod from_step;

pub use curve::{ToleranceResult, tolerance_test};
pub use from_resistance::{read, read_by};
pub use from_step::{forward, forward_by};
pub use law::{ForwardRatio, Reading};
