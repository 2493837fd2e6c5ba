// The curve of IEC 60751: reading, forward from a step to its ratio, and the tolerance test. Each answer names the curve as its law.
#![tactic(auto)]

mod comparison;
mod from_ratio;
mod from_step;
mod guess;
mod search;
mod tolerance;

pub use from_ratio::{read, read_by};
pub use from_step::forward;
pub use tolerance::{ToleranceResult, tolerance_test};
