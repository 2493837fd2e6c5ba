// The examination of a table and of an imported list, entry by entry and by value: what is noted of them, and what an import, a withdrawal and a reading then
// answer.
#![tactic(auto)]

mod answering;
mod read_entry;
mod testing;

pub use answering::{import_answer, withdrawal_answer};
pub use read_entry::reading_answer;
pub use testing::{Noted, Seen, note, nothing_noted, nothing_seen, see};
