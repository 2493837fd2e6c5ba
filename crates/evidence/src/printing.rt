// A line that is put together in fixed memory.
ghost use Rattle.std.specs.Prelude.{◌≤◌};

use std::fmt;

// What has no room is left out.
#[derive(Clone, Copy)]
pub struct Line {
    bytes: [u8; 240],
    len: usize,
    ghost inside: { len ≤ 240 },
}

impl Line {
    pub fn new() -> Line {
        Line {
            bytes: [0; 240],
            len: 0,
        }
    }

    pub fn as_slice(&self) -> &[u8] {
        &self.bytes[..self.len]
    }
}

impl fmt::Write for Line {
    fn write_str(&mut self, text: &str) -> fmt::Result {
        for byte in text.as_bytes() {
            if self.len < self.bytes.len() {
                self.bytes[self.len] = *byte;
                self.len += 1;
            }
        }
        Ok(())
    }
}
