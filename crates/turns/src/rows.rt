// What is said of the rows of a list besides their answers. Where a chunk has a row of which something may be said, its lines are gone through once more, after
// their answers are written.
ghost use Rattle.std.specs.Prelude.{◌<◌, length, IfSome};

use crate::remarks::remark_on;
use crate::voice::Voice;
use list::{Fed, Kind, Stage, State, Tally};
use std::io::IsTerminal;

// Of so many lines something is said.
const MOST_SAID: u64 = 100;

// How many lines there were, those refused among them, and of how many something was said.
#[derive(Clone, Copy)]
pub struct Counts {
    lines: u64,
    refused: u64,
    said: u64,
}

// Whether something may have to be said of a row.
fn is_due(kind: Kind, tally: Tally) -> bool {
    match kind {
        Kind::Records | Kind::Resistances => tally.refused > 0,
        Kind::Readings | Kind::Steps | Kind::Tolerances => tally.faulty > 0,
    }
}

// The first line of these that a CRLF ends, without it, and what comes after it.
fn split_line(part: &[u8]) -> Option<(&[u8], &[u8])>
    ensures { IfSome result (λ x. length x.1.now < length part.now) }
{
    let end = lines::line_end(0, part);
    if end >= part.len() {
        return None;
    }
    Some((&part[..end - 1], &part[end + 1..]))
}

impl Counts {
    pub fn new() -> Self {
        Counts {
            lines: 0,
            refused: 0,
            said: 0,
        }
    }

    // Counts so many lines more, and so many of them refused.
    fn count(&mut self, lines: u64, refused: u64) {
        self.lines = self.lines.wrapping_add(lines);
        self.refused = self.refused.wrapping_add(refused);
    }

    // Counts the next line, and says what is to be said of it.
    fn say_next<P: Print>(&mut self, voice: &Voice<'_, P>, kind: Kind, line: &[u8]) {
        self.count(1, 0);
        if self.said > MOST_SAID {
            return;
        }
        if let Some(remark) = remark_on(kind, line) {
            if self.said == MOST_SAID {
                voice.say(format_args!(
                    "more lines have a fault; only the first {MOST_SAID} are said"
                ));
            } else {
                let number = self.lines;
                voice.say(format_args!("line {number}: {remark}"));
            }
            self.said += 1;
        }
    }

    // The same of each line that ends in these bytes, which were fed from a state. A header is only counted.
    fn say_lines<P: Print>(
        &mut self,
        voice: &Voice<'_, P>,
        kind: Kind,
        state: &State,
        part: &[u8],
    ) {
        let mut held = state.held;
        let begun = list::held_count(state.count);
        let last = held[..begun].last().copied().unwrap_or(0);
        let end = lines::line_end(last, part);
        if end >= part.len() {
            return;
        }
        let count = lines::append(&mut held, begun, &part[..end]);
        // A line that has ended has a CR, so this is always so.
        if let Some((_, line)) = held[..count].split_last() {
            if matches!(state.stage, Stage::Header(_)) {
                self.count(1, 0);
            } else {
                self.say_next(voice, kind, line);
            }
        }
        let mut rest = &part[end + 1..];
        while let Some((line, later)) = split_line(rest) {
            self.say_next(voice, kind, line);
            rest = later;
        }
    }

    // Counts the lines that a feeding answered, and says what is to be said of them: `before` is the state before it, `part` the bytes that it used.
    pub fn after_feeding<P: Print>(
        &mut self,
        voice: &Voice<'_, P>,
        before: &State,
        part: &[u8],
        fed: &Fed,
    ) {
        let tally = fed.tally;
        let mut spoken = *self;
        if let Stage::Rows(kind) = fed.state.stage {
            if self.said <= MOST_SAID && is_due(kind, tally) {
                spoken.say_lines(voice, kind, before, part);
            }
        }
        self.said = spoken.said;
        self.count(tally.lines as u64, tally.refused as u64);
    }

    // Counts the last line, which no CRLF ended, where there is one.
    pub fn after_end<P: Print>(&mut self, voice: &Voice<'_, P>, state: &State, code: u8) {
        let count = list::held_count(state.count);
        if count == 0 {
            return;
        }
        match state.stage {
            Stage::Header(_) => self.count(1, 0),
            Stage::Rows(kind) => {
                self.say_next(voice, kind, &state.held[..count]);
                if code != 0 {
                    self.count(0, 1);
                }
            }
            Stage::Stopped => {}
        }
    }

    // Says how many lines were answered and refused, where somebody reads it as it comes. The header is none of them.
    pub fn say_sum<P: Print + IsTerminal>(&self, voice: &Voice<'_, P>) {
        if voice.people.is_terminal() {
            let refused = self.refused;
            let answered = self.lines.wrapping_sub(refused.wrapping_add(1));
            voice.say(format_args!("lines answered: {answered}, refused: {refused}"));
        }
    }
}
