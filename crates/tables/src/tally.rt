// How many published figures agree and how many differ.
use std::fmt;

#[derive(Clone, Copy)]
pub struct Tally {
    pub agree: u64,
    pub differ: u64,
}

impl Tally {
    // Counts a verdict, and gives its word.
    pub fn verdict(&mut self, agrees: bool) -> &'static str {
        if agrees {
            self.agree = self.agree.wrapping_add(1);
            return "agrees";
        }
        self.differ = self.differ.wrapping_add(1);
        "differs"
    }
}

impl fmt::Display for Tally {
    fn fmt<W: fmt::Write>(&self, f: &mut fmt::Formatter<W>) -> fmt::Result {
        write!(f, "{} agree, {} differ", self.agree, self.differ)
    }
}
