// Reading, answering and writing, turn by turn.
use crate::header::say_wrong;
use crate::kept::Kept;
use crate::rows::Counts;
use crate::voice::Voice;
use list::{Stage, State};
use std::io;
use std::io::{IsTerminal, Read};

// So many bytes are read and answered at once.
const AT_ONCE: usize = 65_536;

// Why a list was not answered to its end. The last is for an input that has more turns than there are numbers to count them by.
#[derive(Drop)]
pub enum Failure {
    WrongHeader,
    Input(io::Error),
    Output(io::Error),
    Endless,
}

// A list that is being answered: where to, who speaks of it, where it stands, the first bytes of the input, and the lines so far.
#[derive(Drop)]
pub struct Run<'a, O, P> {
    output: &'a O,
    voice: &'a Voice<'a, P>,
    state: State,
    first: Kept,
    counts: Counts,
}

impl<'a, O: Print, P: Print + IsTerminal> Run<'a, O, P> {
    pub fn new(output: &'a O, voice: &'a Voice<'a, P>) -> Self {
        Run {
            output,
            voice,
            state: list::start(voice.desk),
            first: Kept::new(),
            counts: Counts::new(),
        }
    }

    fn write(&self, text: &[u8]) -> Result<(), Failure> {
        self.output
            .write_all(text)
            .map_err(|why| Failure::Output(why))
    }

    // Feeds all of a chunk, and writes what is answered before anything is said of it.
    fn feed(&mut self, chunk: &[u8], out: &mut [u8; AT_ONCE]) -> Result<(), Failure> {
        if matches!(self.state.stage, Stage::Header(_)) {
            self.first.keep(chunk);
        }
        // Each feeding says how much of the chunk it used, so this is a loop by what is left.
        let mut rest = chunk;
        while !rest.is_empty() {
            let fed = list::feed(self.state, rest, out);
            self.write(&out[..fed.wrote])?;
            let (part, later) = rest.split_at(fed.used);
            self.counts
                .after_feeding(self.voice, &self.state, part, &fed);
            self.state = fed.state;
            rest = later;
        }
        if matches!(self.state.stage, Stage::Stopped) {
            return Err(Failure::WrongHeader);
        }
        Ok(())
    }

    // What is still due at the end of the input.
    fn finish(&mut self, out: &mut [u8; AT_ONCE]) -> Result<(), Failure> {
        let x = list::finish(self.state, out);
        self.write(&out[..x.wrote])?;
        if matches!(self.state.stage, Stage::Header(_)) && x.code != 0 {
            return Err(Failure::WrongHeader);
        }
        self.counts.after_end(self.voice, &self.state, x.code);
        self.counts.say_sum(self.voice);
        Ok(())
    }

    // Answers all of an input. A proved loop has to end, and nothing says that the input does: turns are counted, up to a number that no input uses up.
    fn answer(
        &mut self,
        input: &mut impl Read,
        buf: &mut [u8],
        out: &mut [u8; AT_ONCE],
    ) -> Result<(), Failure> {
        for _ in 0..u64::MAX {
            let n = input.read(buf).map_err(|why| Failure::Input(why))?;
            if n == 0 {
                return self.finish(out);
            }
            self.feed(&buf[..n], out)?;
        }
        Err(Failure::Endless)
    }

    fn say(&self, failure: Failure) {
        match failure {
            Failure::WrongHeader => say_wrong(self.voice, self.first.as_slice()),
            Failure::Input(why) => self.voice.say_failed("standard input", &why),
            Failure::Output(why) => self.voice.say_failed("standard output", &why),
            Failure::Endless => {}
        }
    }
}

// Answers a list, input to output, and says to people what is to be said. Whether the header was right and all was read and written: a
// failure has been said by then, and all that is left of it is the status.
pub fn answer<P: Print + IsTerminal>(
    input: &mut impl Read,
    output: &impl Print,
    voice: &Voice<'_, P>,
) -> bool {
    let mut buf = [0u8; AT_ONCE];
    let mut out = [0u8; AT_ONCE];
    let mut run = Run::new(output, voice);
    match run.answer(input, &mut buf, &mut out) {
        Ok(()) => true,
        Err(failure) => {
            run.say(failure);
            false
        }
    }
}
