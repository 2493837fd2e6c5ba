// What is printed of a family of cases.
use crate::printing::Line;

// A family of cases: how far it has come, and the digest of its block.
#[derive(Clone, Copy)]
pub struct Report {
    pub family: &'static str,
    pub cases: u64,
    pub digest: u64,
}

// The digest with one byte more.
fn digested(digest: u64, byte: u8) -> u64 {
    (digest % 4_294_967_291 * 16_777_619 + u64::from(byte) + 1) % 4_294_967_291
}

// The first forty cases of a family, and each hundredth.
fn is_printed(i: u64) -> bool {
    i < 40 || i % 100 == 0
}

impl Report {
    pub fn new(family: &'static str) -> Report {
        Report {
            family,
            cases: 0,
            digest: 0,
        }
    }

    // Takes in a case's line, its LF included: prints it where it is one of those printed, and the block's digest where it ends one.
    pub fn case(&mut self, out: &impl Print, line: &Line) {
        let line = line.as_slice();
        self.digest = line.iter().fold(self.digest, |h, byte| digested(h, *byte));
        if is_printed(self.cases) {
            let _ = out.write_all(line);
        }
        self.cases = self.cases % 1_000_000_000 + 1;
        if self.cases % 1000 == 0 {
            let _ = println!(out; "digest {} {} {}", self.family, self.cases, self.digest);
            self.digest = 0;
        }
    }
}
