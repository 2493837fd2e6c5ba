// A text written into a lent buffer.
ghost use Rattle.std.specs.Prelude.{◌≡◌, ◌+◌, ◌≤◌, ◌++◌, length};
ghost use Rattle.whole.specs.Text.{ascii};
ghost use Rattle.text.specs.Decimal.{decimal, signed_decimal, longest_number};
ghost use Rattle.text.specs.Writing.{over, Added};

use crate::decimal;

// Writes s from `at` on.
pub fn put(out: &mut [u8], at: usize, s: &[u8])
    requires { at + length s.now ≤ length out.old }
    ensures { out.new ≡ over out.old at s.now }
{
    out[at..at + s.len()].copy_from_slice(s);
}

// Adds a text after the first `at` bytes, and answers where it ends.
pub fn add(out: &mut [u8], at: usize, s: &[u8]) -> usize
    requires { at + length s.now ≤ length out.old }
    ensures { Added out.old at s.now out.new result }
{
    put(out, at, s);
    at + s.len()
}

// Adds a number in its digits.
pub fn add_number(out: &mut [u8], at: usize, n: u64) -> usize
    requires { at + longest_number ≤ length out.old }
    ensures { Added out.old at (decimal n) out.new result × (result ≤ at + longest_number) }
{
    let digits = decimal::width(n);
    decimal::put_digits(out, at, n, digits);
    at + digits
}

// Adds a number of either sign, with a comma after it.
pub fn add_signed(out: &mut [u8], at: usize, z: i64) -> usize
    requires { at + longest_number + 2 ≤ length out.old }
    ensures { Added out.old at (signed_decimal z ++ ascii ",") out.new result × (result ≤ at + longest_number + 2) }
{
    let sign: &[u8] = if z < 0 { b"-" } else { b"" };
    let digits = add(out, at, sign);
    let end = add_number(out, digits, z.unsigned_abs());
    add(out, end, b",")
}
