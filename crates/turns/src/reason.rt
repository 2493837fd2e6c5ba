// Why reading or writing failed, in the system's words alone: `Display` of an error says its number too.
use crate::kept::Kept;
use std::fmt::{Display, Write};
use std::{fmt, io};

// What stands before the number.
const BEFORE_NUMBER: &str = " (os error ";

// The text of the bytes, up to the first that is no character, as one is that was cut.
fn text_in(bytes: &[u8]) -> &str {
    match str::from_utf8(bytes) {
        Ok(text) => text,
        Err(why) => match bytes.get(..why.valid_up_to()) {
            Some(good) => str::from_utf8(good).unwrap_or(""),
            None => "",
        },
    }
}

#[derive(Clone, Copy)]
pub struct Reason<'a>(pub &'a io::Error);

impl<'a> Display for Reason<'a> {
    fn fmt<W: Write>(&self, f: &mut fmt::Formatter<W>) -> fmt::Result {
        let why = self.0;
        let mut said = Kept::new();
        write!(said, "{why}")?;
        let text = text_in(said.as_slice());
        match text.split_once(BEFORE_NUMBER) {
            Some((words, _)) => f.write_str(words),
            None => f.write_str(text),
        }
    }
}
