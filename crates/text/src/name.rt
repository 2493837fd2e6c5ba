// The fields that are words: an id, a name, a letter.
ghost use Rattle.std.specs.Prelude.{◌≡◌, ◌≤◌, length};
ghost use Rattle.whole.specs.Text.{name_of};
ghost use Rattle.text.specs.Columns.{id_byte, is_id, is_name, is_letter, first_byte};
ghost use Rattle.text.specs.Scanned.{closes_at, next_if, next_of, next_at, scanned_in, scanned_at};

use crate::field;
use crate::field::Scanned;

pub const LONGEST_ID: usize = 16;

pub const LONGEST_NAME: usize = 8;

fn id_byte(b: u8) -> bool
    ensures { result ≡ id_byte b }
{
    b.is_ascii_alphanumeric() | (b == b'-')
}

// Where the field after an id that ends at i starts.
fn id_ended(s: &[u8], i: usize) -> usize
    requires { i ≤ length s.now }
    ensures { result ≡ next_if (closes_at i s.now) i s.now }
{
    if field::closes(s, i) {
        return i + 1;
    }
    field::no_field(s)
}

// Where the field after the id starts.
pub fn after_id(s: &[u8]) -> usize
    ensures { result ≡ next_of is_id s.now }
{
    for (i, b) in s.iter().enumerate() {
        if !id_byte(*b) {
            return id_ended(s, i);
        }
        if i == LONGEST_ID {
            return field::no_field(s);
        }
    }
    id_ended(s, s.len())
}

// Where the field after the id that starts at an offset of the line starts.
pub fn id_at(line: &[u8], from: usize) -> usize
    ensures { result ≡ next_at is_id line.now from }
{
    match line.get(from..) {
        Some(s) => from + after_id(s),
        None => field::no_field(line),
    }
}

fn name_in(s: &[u8]) -> Scanned<u64>
    ensures { result ≡ scanned_in 0 is_name name_of s.now }
{
    let mut value: u64 = 0;
    for (i, b) in s.iter().enumerate() {
        if !b.is_ascii_lowercase() {
            return field::ended(s, i, value);
        }
        if i == LONGEST_NAME {
            return field::broken(s, 0);
        }
        value = value * 256 + u64::from(*b);
    }
    field::ended(s, s.len(), value)
}

// The name in the field that starts at an offset of the line.
pub fn name_at(line: &[u8], from: usize) -> Scanned<u64>
    ensures { result ≡ scanned_at is_name name_of line.now from }
{
    match line.get(from..) {
        Some(s) => name_in(s).further(from),
        None => field::broken(line, 0),
    }
}

fn letter_in(s: &[u8]) -> Scanned<u64>
    ensures { result ≡ scanned_in 0 is_letter first_byte s.now }
{
    match s.first() {
        Some(b) if b.is_ascii_alphabetic() => field::ended(s, 1, u64::from(*b)),
        _ => field::broken(s, 0),
    }
}

// The letter in the field that starts at an offset of the line.
pub fn letter_at(line: &[u8], from: usize) -> Scanned<u64>
    ensures { result ≡ scanned_at is_letter first_byte line.now from }
{
    match line.get(from..) {
        Some(s) => letter_in(s).further(from),
        None => field::broken(line, 0),
    }
}
