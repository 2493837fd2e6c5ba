// Why a field breaks its rule, in words.
use std::fmt;
use text::{Holds, LONGEST_ID, LONGEST_NAME};

#[derive(Clone, Copy)]
pub enum Why {
    Plain(&'static str),
    MoreThan(usize, &'static str),
}

impl fmt::Display for Why {
    fn fmt<W: fmt::Write>(&self, f: &mut fmt::Formatter<W>) -> fmt::Result {
        match *self {
            Why::Plain(words) => f.write_str(words),
            Why::MoreThan(most, what) => write!(f, "more than {most} {what}"),
        }
    }
}

// Whether a field of this kind may hold a byte; a minus before a number is not one of them.
fn takes(held: Holds, b: u8) -> bool {
    match held {
        Holds::Id => b.is_ascii_alphanumeric() || b == b'-',
        Holds::Name => b.is_ascii_lowercase(),
        Holds::Letter => b.is_ascii_alphabetic(),
        Holds::Natural(_) | Holds::Signed(_) => b.is_ascii_digit(),
    }
}

fn other_byte(b: u8) -> &'static str {
    if b.is_ascii_digit() {
        "a digit"
    } else if b.is_ascii_uppercase() {
        "a capital letter"
    } else if b.is_ascii_lowercase() {
        "a small letter"
    } else if b.is_ascii() {
        "a byte that may not stand there"
    } else {
        "a byte that is not ASCII"
    }
}

fn byte(b: u8) -> &'static str {
    match b {
        b'.' => "a point",
        b' ' => "a blank",
        b'"' => "a quote",
        b';' => "a semicolon",
        b'+' => "a plus",
        b'-' => "a minus",
        b'_' => "an underscore",
        b'\t' => "a tab",
        b'\r' => "a CR",
        _ => other_byte(b),
    }
}

// Of digits alone that are no number of at most so many: what is left is a 0 after a minus.
fn of_digits(digits: &[u8], most: usize) -> Why {
    if digits.len() > 1 && digits.starts_with(b"0") {
        Why::Plain("a leading zero")
    } else if digits.len() > most {
        Why::MoreThan(most, "digits")
    } else {
        Why::Plain("a minus before 0")
    }
}

// Of a field of bytes that may all stand in it.
fn of_size(held: Holds, field: &[u8]) -> Why {
    match held {
        Holds::Id => Why::MoreThan(LONGEST_ID, "bytes"),
        Holds::Name => Why::MoreThan(LONGEST_NAME, "letters"),
        Holds::Letter => Why::Plain("more than one letter"),
        Holds::Natural(most) | Holds::Signed(most) => of_digits(field, most),
    }
}

// Of a field that is not empty, without the minus that it may have.
fn of_content(held: Holds, field: &[u8]) -> Why {
    match field.iter().copied().find(|b| !takes(held, *b)) {
        Some(b) => Why::Plain(byte(b)),
        None => of_size(held, field),
    }
}

// Why a field that breaks its rule does.
pub fn why_broken(held: Holds, field: &[u8]) -> Why {
    if field.is_empty() {
        return Why::Plain("it is empty");
    }
    if matches!(held, Holds::Signed(_)) {
        match field.strip_prefix(b"-") {
            Some(b"") => return Why::Plain("a minus alone"),
            Some(digits) => return of_content(held, digits),
            None => {}
        }
    }
    of_content(held, field)
}
