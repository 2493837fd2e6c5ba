// Text: the fields of a line read, and numbers written into a lent buffer. It knows no thermometry.
#![tactic(auto)]

mod columns;
mod decimal;
mod field;
mod name;
mod number;
mod writing;

pub use columns::{Fault, Holds, commas_in, fault_in, fault_of};
pub use decimal::{put_digits, width};
pub use field::{LONGEST_LINE, Scanned};
pub use name::{LONGEST_ID, LONGEST_NAME, after_id, letter_at, name_at};
pub use number::{number_at, signed_at};
pub use writing::{add, add_number, add_signed, put};
