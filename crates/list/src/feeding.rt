// Feeding a list chunk by chunk. A line that lies whole in a chunk is read where it lies; only a line that the chunk's end cuts is carried over.
ghost use Rattle.std.specs.Prelude.{◌≡◌, [], ◌+◌, ◌^◌, ◌≤◌, ◌<◌, leb, length, take};
ghost use Rattle.whole.specs.Choice.{if◌then◌otherwise◌};
ghost use Rattle.lines.specs.Held.{most_held};
ghost use Rattle.list.specs.Feeding.{line_of, FedAs, EndedWith, EndedAs};
ghost use Rattle.list.specs.Replies.{Standing, HeldAs, FedOn};

use crate::replies::{reply_to, wrong_header};
use crate::state::{Stage, State};
use crate::tally::{Tally, no_lines};
use line::{LineAnswer, no_room};
use lines::MOST_HELD;
use quantity::Refusal;

// What a feeding did: the new state, how many bytes of the chunk it used and how many of the buffer it wrote, the tally of the lines that ended, and the
// code: 11 where it left bytes of the chunk because the buffer was too short for a line's answer, else 0. `FedAs` says it in numbers, as of a line.
#[derive(Clone, Copy)]
pub struct Fed {
    pub state: State,
    pub used: usize,
    pub wrote: usize,
    pub tally: Tally,
    pub code: u8,
}

// A place between two lines: what comes next, how much of the chunk is used and of the buffer written, and the tally of the lines that ended.
#[derive(Clone, Copy)]
pub struct Place {
    pub stage: Stage,
    pub used: usize,
    pub wrote: usize,
    pub tally: Tally,
}

// Ends a feeding at a place, with the part of the chunk that comes next held.
fn hold(before: [u8; MOST_HELD], place: Place, part: &[u8], code: u8) -> Fed
    requires { place.used + length part.now < 2 ^ 63 }
    ensures { HeldAs place part.now code result }
{
    let mut held = before;
    let count = lines::append(&mut held, 0, part);
    Fed {
        state: State {
            held,
            count,
            stage: place.stage,
        },
        used: place.used + part.len(),
        wrote: place.wrote,
        tally: place.tally,
        code,
    }
}

// Feeds a chunk from a place on: its whole lines are read where they lie.
fn feed_on(held: [u8; MOST_HELD], first: Place, chunk: &[u8], out: &mut [u8]) -> Fed
    requires { Standing chunk.now out.old first }
    ensures { FedOn first chunk.now out.old out.new result }
{
    let mut place = first;
    // No iterator of lines: where the buffer is full, feeding ends with how much of the chunk is used, and the caller goes on from there.
    while place.used < chunk.len() {
        let from = place.used;
        let at = place.wrote;
        let end = from + lines::line_end(0, &chunk[from..]);
        if end == chunk.len() {
            return hold(held, place, &chunk[from..], 0);
        }
        let reply = reply_to(place.stage, &chunk[from..end - 1], &mut out[at..]);
        let Some(x) = reply.answer else {
            return hold(
                held,
                place,
                &chunk[from..end],
                Refusal::BufferShort.number(),
            );
        };
        place = Place {
            stage: reply.stage,
            used: end + 1,
            wrote: at + x.wrote,
            tally: place.tally.with_line(x.code),
        };
    }
    hold(held, place, b"", 0)
}

// How many bytes of a partial line are held, whatever the count says.
pub fn held_count(count: usize) -> usize
    ensures { result ≡ (if leb count most_held then count otherwise most_held) }
{
    count.min(MOST_HELD)
}

// Feeds a chunk where the first `begun` bytes are what is held of a partial line.
fn feed_held(state: State, begun: usize, chunk: &[u8], out: &mut [u8]) -> Fed
    requires { (1 ≤ begun) × (begun ≤ most_held) × (line_of state ≡ take begun state.held) }
    ensures { FedAs state chunk.now out.old out.new result }
{
    let mut held = state.held;
    let stage = state.stage;
    let end = lines::line_end(held[begun - 1], chunk);
    let count = lines::append(&mut held, begun, &chunk[..end]);
    if end == chunk.len() {
        return Fed {
            state: State { held, count, stage },
            used: end,
            wrote: 0,
            tally: no_lines(),
            code: 0,
        };
    }
    let reply = reply_to(stage, &held[..count - 1], out);
    let Some(x) = reply.answer else {
        return Fed {
            state: State { held, count, stage },
            used: end,
            wrote: 0,
            tally: no_lines(),
            code: Refusal::BufferShort.number(),
        };
    };
    let place = Place {
        stage: reply.stage,
        used: end + 1,
        wrote: x.wrote,
        tally: no_lines().with_line(x.code),
    };
    feed_on(held, place, chunk, out)
}

// Feeds a chunk. A line that the last chunk began is held, and is answered when this one ends it.
pub fn feed(state: State, chunk: &[u8], out: &mut [u8]) -> Fed
    ensures { FedAs state chunk.now out.old out.new result }
{
    let begun = held_count(state.count);
    if begun == 0 {
        let place = Place {
            stage: state.stage,
            used: 0,
            wrote: 0,
            tally: no_lines(),
        };
        return feed_on(state.held, place, chunk, out);
    }
    feed_held(state, begun, chunk, out)
}

// What is due where the input ends and no line is begun.
fn nothing_begun(stage: Stage, out: &mut [u8]) -> LineAnswer
    ensures { EndedWith stage [] out.old out.new result }
{
    match stage {
        Stage::Header(desk) => wrong_header(desk, out).unwrap_or(no_room()),
        Stage::Rows(_) => LineAnswer { code: 0, wrote: 0 },
        Stage::Stopped => LineAnswer { code: 0, wrote: 0 },
    }
}

// Answers what is left where the input ends.
pub fn finish(state: State, out: &mut [u8]) -> LineAnswer
    ensures { EndedAs state out.old out.new result }
{
    let count = held_count(state.count);
    if count == 0 {
        return nothing_begun(state.stage, out);
    }
    reply_to(state.stage, &state.held[..count], out)
        .answer
        .unwrap_or(no_room())
}
