// An entry of the register, by value: the test of its certificate, how two entries of one thermometer become one, and how its mark is raised. What the tests of
// whole tables and lists come to stands above this crate, in `examination`, and the table that is lent in `register`.
#![tactic(auto)]

mod entry;

pub use entry::{Entry, Serial, Thermometer, is_bad, is_unknown, is_unsound};
