// The answer to one line of a list, written into a lent buffer.
#![tactic(auto)]

mod kind;
mod lent;
mod readings;

pub use kind::{Kind, answer, place};
pub use lent::{LineAnswer, no_room, place_fault, place_refused, place_text};
pub use readings::Readings;
