// What is carried from chunk to chunk of a list.
ghost use Rattle.list.specs.Promised.{Start};

use crate::kinds::{Desk, Kind};
use lines::MOST_HELD;

// What is due to the next line: it is the header of one of the desk's lists, it is a row, or nothing is read any more.
#[derive(Clone, Copy)]
pub enum Stage {
    Header(Desk),
    Rows(Kind),
    Stopped,
}

// What is held of a partial line, in the first `count` bytes, and the stage. A `count` past the array is its length.
#[derive(Clone, Copy)]
pub struct State {
    pub held: [u8; MOST_HELD],
    pub count: usize,
    pub stage: Stage,
}

// Before the first byte.
pub fn start(desk: Desk) -> State
    ensures { Start desk result }
{
    State {
        held: [0u8; MOST_HELD],
        count: 0,
        stage: Stage::Header(desk),
    }
}
