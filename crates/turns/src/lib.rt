// What the programs over lists share: what they were asked, the turns from standard input to standard output, and what is said to people: of a wrong header, of
// rows, and how many there were.
#![tactic(auto)]

mod asked;
mod columns;
mod faults;
mod fields;
mod header;
mod kept;
mod program;
mod reason;
mod remarks;
mod rows;
mod turns;
mod voice;
mod why;

pub use program::run;
