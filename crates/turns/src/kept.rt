// A short text that is kept: the first bytes of an input, so that a wrong header can be shown, or the words of a failure.
ghost use Rattle.std.specs.Prelude.{◌≡◌, ℕ, ◌≤◌, List, [], ◌++◌, take};
ghost use Rattle.turns.specs.declared.kept.TheConstants.{MOST_KEPT};

use std::fmt;
use std::fmt::Write;
use std::marker::Model;

const MOST_KEPT: usize = 128;

#[derive(Drop)]
pub struct Kept {
    bytes: [u8; MOST_KEPT],
    count: usize,
}

impl Model for Kept {
    ghost Value = { List ℕ };

    ghost view = { λ k. take k.count k.bytes };

    ghost invariant = { λ k. k.count ≤ MOST_KEPT };
}

impl Kept {
    pub fn new() -> Self
        ensures { result ≡ [] }
    {
        Kept {
            bytes: [0; MOST_KEPT],
            count: 0,
        }
    }

    // Keeps the bytes that come next, as far as there is room.
    pub fn keep(&mut self, next: &[u8])
        ensures { self.new ≡ take MOST_KEPT (self.old ++ next.now) }
    {
        let count = self.count;
        let n = (MOST_KEPT - count).min(next.len());
        self.bytes[count..count + n].copy_from_slice(&next[..n]);
        self.count = count + n;
    }

    pub fn as_slice(&self) -> &[u8]
        ensures { result.now ≡ self.now }
    {
        &self.bytes[..self.count]
    }
}

impl Write for Kept {
    fn write_str(&mut self, text: &str) -> fmt::Result {
        self.keep(text.as_bytes());
        Ok(())
    }
}
