// The rows of each kind of list: what a line says by its columns, or why it is no row.
#![tactic(auto)]

mod digits;
mod forward;
mod readings;
mod records;
mod resistances;
mod row;
mod tolerances;

pub use forward::ForwardRow;
pub use readings::ReadingRow;
pub use records::RecordRow;
pub use resistances::ResistancesRow;
pub use row::{Row, parse};
pub use tolerances::ToleranceRow;
