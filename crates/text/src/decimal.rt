// Numbers in decimal digits.
ghost use Rattle.std.specs.Prelude.{◌≡◌, ◌+◌, ◌≤◌, ◌<◌, length};
ghost use Rattle.text.specs.Decimal.{decimal};
ghost use Rattle.text.specs.Writing.{over};

// How many digits a number of at most seven has. Each digit costs a comparison, where a loop costs a division.
fn width_to_seven(n: u64) -> usize
    requires { n < 10000000 }
    ensures { result ≡ length (decimal n) }
{
    if n >= 1_000_000 {
        return 7;
    }
    if n >= 100_000 {
        return 6;
    }
    if n >= 10_000 {
        return 5;
    }
    if n >= 1_000 {
        return 4;
    }
    if n >= 100 {
        return 3;
    }
    if n >= 10 {
        return 2;
    }
    1
}

// How many digits a number has. Of more than seven, seven are taken off at a time.
pub fn width(n: u64) -> usize
    ensures { result ≡ length (decimal n) }
{
    let mut rest = n;
    let mut off: usize = 0;
    while rest >= 10_000_000 {
        rest /= 10_000_000;
        off += 7;
    }
    off + width_to_seven(rest)
}

fn digit(d: u64) -> u8
    requires { d < 10 }
    ensures { result ≡ 48 + d }
{
    b'0' + d as u8
}

// Writes a number's digits, which are so many, from `at` on, the last one first.
pub fn put_digits(out: &mut [u8], at: usize, n: u64, digits: usize)
    requires { (digits ≡ length (decimal n)) × (at + digits ≤ length out.old) }
    ensures { out.new ≡ over out.old at (decimal n) }
{
    let mut rest = n;
    // By what is left of the number and not by a count of its places: the first digit needs no division.
    let mut i = at + digits;
    while rest >= 10 {
        i -= 1;
        out[i] = digit(rest % 10);
        rest /= 10;
    }
    out[at] = digit(rest);
}
