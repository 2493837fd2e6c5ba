// The fields that are numbers.
ghost use Rattle.std.specs.Prelude.{◌≡◌, ◌<◌, ◌≤◌, ◌^◌, pos, length};
ghost use Rattle.text.specs.Fields.{digit};
ghost use Rattle.text.specs.Numbers.{most_digits, is_number, value_of, is_signed, signed_of};
ghost use Rattle.text.specs.Scanned.{scanned_in, scanned_at, signed_at};

use crate::field;
use crate::field::Scanned;

// So many digits a number has in any column, and fits 64 bits with a sign. That bound is a clause and no type: `number_at` and `signed_at` are public, take a
// plain number and ask no more of callers.
const MOST_DIGITS: usize = 18;

// The test is made of the widened byte, as the value is: the compiler takes one difference for both. By the library's `is_ascii_digit` of the byte a line of
// readings takes an eighth more instructions.
fn is_digit(b: u64) -> bool
    ensures { result ≡ digit b }
{
    48 <= b && b <= 57
}

// The number in the first field, of at most `end` digits, where s has so many bytes. A field that begins with 0 is decided at once, so no other has a leading
// zero.
fn number_to(s: &[u8], end: usize) -> Scanned<u64>
    requires { (end ≤ length s.now) × (end ≤ most_digits) }
    ensures { result ≡ scanned_in 0 (is_number end) value_of s.now }
{
    if end == 0 {
        return field::broken(s, 0);
    }
    if s[0] == b'0' {
        return field::ended(s, 1, 0);
    }
    let mut value: u64 = 0;
    for i in 0..end {
        let b = u64::from(s[i]);
        if !is_digit(b) {
            return field::ended(s, i, value);
        }
        value = value * 10 + (b - 48);
    }
    field::ended(s, end, value)
}

// Where the bytes suffice, only the digits are counted: the most of them being a constant, the compiler writes the turns out, with no test of an end.
fn number_of(s: &[u8]) -> Scanned<u64>
    ensures { result ≡ scanned_in 0 (is_number most_digits) value_of s.now }
{
    if MOST_DIGITS < s.len() {
        return number_to(s, MOST_DIGITS);
    }
    number_to(s, s.len())
}

// The number in the first field, of at most so many digits.
fn number_in(s: &[u8], most: usize) -> Scanned<u64>
    requires { most ≤ most_digits }
    ensures said { result ≡ scanned_in 0 (is_number most) value_of s.now }
    ensures small { result.value < 2 ^ 63 }
{
    let n = number_of(s);
    if most + 1 < n.next {
        return field::broken(s, 0);
    }
    n
}

fn signed_in(s: &[u8], most: usize) -> Scanned<i64>
    requires { most ≤ most_digits }
    ensures { result ≡ scanned_in (pos 0) (is_signed most) signed_of s.now }
{
    if let Some((b'-', digits)) = s.split_first() {
        let n = number_in(digits, most);
        if n.value == 0 {
            return field::broken(s, 0);
        }
        return Scanned {
            value: -(n.value as i64),
            next: n.next + 1,
        };
    }
    let n = number_in(s, most);
    Scanned {
        value: n.value as i64,
        next: n.next,
    }
}

// The number, of at most so many digits, in the field that starts at an offset of the line.
pub fn number_at(line: &[u8], from: usize, most: usize) -> Scanned<u64>
    requires { most ≤ most_digits }
    ensures { result ≡ scanned_at (is_number most) value_of line.now from }
{
    match line.get(from..) {
        Some(s) => number_in(s, most).further(from),
        None => field::broken(line, 0),
    }
}

pub fn signed_at(line: &[u8], from: usize, most: usize) -> Scanned<i64>
    requires { most ≤ most_digits }
    ensures { result ≡ signed_at most line.now from }
{
    match line.get(from..) {
        Some(s) => signed_in(s, most).further(from),
        None => field::broken(line, 0),
    }
}
