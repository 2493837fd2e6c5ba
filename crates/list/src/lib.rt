// A whole list, fed in chunks of any size and answered into buffers of any size, with constant memory.
#![tactic(auto)]

mod feeding;
mod kinds;
mod replies;
mod state;
mod tally;

pub use feeding::{Fed, feed, finish, held_count};
pub use kinds::{Desk, Kind};
pub use state::{Stage, State, start};
pub use tally::Tally;
