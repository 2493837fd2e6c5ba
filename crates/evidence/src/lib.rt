// What the programs that are evidence share: cases from a small seeded generator, lines that are printed in part and digested whole, and how
// certificates and readings are printed. What an output does not take is lost, and nothing is said of it.
// second/README.md has the rules, which the second program follows too.
#![tactic(auto)]

mod certificates;
mod generator;
mod printing;
mod report;

pub use certificates::{Said, given_by, law_name};
pub use generator::Generator;
pub use printing::Line;
pub use report::Report;
