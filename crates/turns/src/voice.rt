// What a program says to people, on standard error. A message that it does not take is lost, and nothing else comes of that.
use crate::reason::Reason;
use list::Desk;
use std::fmt::Display;
use std::{fmt, io};

// Bytes of an input, which need not be text: what no terminal shows is a dot.
#[derive(Clone, Copy)]
pub struct Shown<'a>(pub &'a [u8]);

impl<'a> Display for Shown<'a> {
    fn fmt<W: fmt::Write>(&self, f: &mut fmt::Formatter<W>) -> fmt::Result {
        for b in self.0 {
            let shown = if b.is_ascii_graphic() || *b == b' ' {
                char::from(*b)
            } else {
                '.'
            };
            f.write_char(shown)?;
        }
        Ok(())
    }
}

// The voice of the program that has a desk.
#[derive(Drop)]
pub struct Voice<'a, P> {
    pub people: &'a P,
    pub desk: Desk,
}

impl<'a, P: Print> Voice<'a, P> {
    // The program's name.
    fn program(&self) -> &'static str {
        match self.desk {
            Desk::Launch => "launchlist",
            Desk::Bench => "benchlist",
        }
    }

    // Says a message, after the program's name.
    pub fn say<D: Display + Drop>(&self, message: D) {
        let program = self.program();
        let _ = println!(self.people; "{program}: {message}");
    }

    // Says one more line of it.
    pub fn add<D: Display + Drop>(&self, line: D) {
        let _ = println!(self.people; "  {line}");
    }

    // Says what failed, and why.
    pub fn say_failed(&self, what: &str, why: &io::Error) {
        let reason = Reason(why);
        self.say(format_args!("{what}: {reason}"));
    }
}
