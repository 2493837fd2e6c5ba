// Where a line of the input ends, and what is held of a partial line.
#![tactic(auto)]

ghost use Rattle.std.specs.Prelude.{◌≡◌, ◌++◌, ◌+◌, ◌-◌, ◌≤◌, ◌<◌, length, take, drop};
ghost use Rattle.std.specs.List.{list_any};
ghost use Rattle.lines.specs.Held.{most_held, Appended};
ghost use Rattle.lines.specs.Ends.{byte_before, EndsAfter};
ghost use Rattle.lines.specs.Feeds.{feed, NoFeed, FirstFeed};

use text::LONGEST_LINE;

// The most bytes that are held of a partial line.
pub const MOST_HELD: usize = LONGEST_LINE + 2;

// The place of the last of them.
const LAST_HELD: usize = MOST_HELD - 1;

// The byte before the one at i, which is the given last one before the first; a 0 there stands for no byte, and is no CR.
fn byte_before(last: u8, s: &[u8], i: usize) -> u8
    requires { i ≤ length s.now }
    ensures { result ≡ byte_before last s.now i }
{
    if i == 0 { last } else { s[i - 1] }
}

// A LF stands among the N bytes from i on. All are tested, with no branch between: the compiler makes comparisons of vectors of it.
fn feed_in<const N: usize>(s: &[u8], i: usize) -> bool
    requires { i + N ≤ length s.now }
    ensures { result ≡ list_any feed (take N (drop i s.now)) }
{
    let mut found = false;
    for b in &s[i..i + N] {
        found |= *b == b'\n';
    }
    found
}

// Passes over sixteen bytes at a time that have no LF, from an offset on: a turn is a comparison of vectors. It answers an offset and no Option, since the
// search goes on from there. It goes by the offset and not by chunks of the slice: of a chunk the compiler does not know that it has sixteen bytes.
fn skip(s: &[u8], from: usize) -> usize
    requires { from ≤ length s.now }
    ensures { NoFeed s.now from result }
{
    let mut i = from;
    while s.len() - i >= 16 {
        if feed_in::<16>(s, i) {
            return i;
        }
        i += 16;
    }
    i
}

// The same, and then over eight more: of the bytes left, few are to be looked at one by one.
fn skip_more(s: &[u8], from: usize) -> usize
    requires { from ≤ length s.now }
    ensures { NoFeed s.now from result }
{
    let i = skip(s, from);
    if s.len() - i < 8 {
        return i;
    }
    if feed_in::<8>(s, i) {
        return i;
    }
    i + 8
}

// The offset of the first LF from an offset on, or the length where there is none.
fn feed_from(s: &[u8], from: usize) -> usize
    requires { from ≤ length s.now }
    ensures { FirstFeed s.now from result }
{
    let start = skip_more(s, from);
    for (k, b) in s[start..].iter().enumerate() {
        if *b == b'\n' {
            return start + k;
        }
    }
    s.len()
}

// The offset of the first LF that ends a line, or the length where there is none. `last` is the last byte of the partial line before s, 0 where that is empty.
// Only at a LF is the byte before it looked at: most bytes are none. Each turn goes on after the LF that the last one found, so it is no `position` of one test; and
// it answers an offset and no Option, since what is used of s ends there in both cases.
pub fn line_end(last: u8, s: &[u8]) -> usize
    ensures { EndsAfter last s.now result }
{
    let mut i = feed_from(s, 0);
    while i < s.len() {
        if byte_before(last, s, i) == b'\r' {
            return i;
        }
        i = feed_from(s, i + 1);
    }
    i
}

// Adds to the first `count` bytes as many of s as fill all but the last of the bytes that are held.
fn fill(held: &mut [u8], count: usize, s: &[u8])
    requires { (length held.old ≡ most_held) × (count ≤ most_held) × (most_held < count + length s.now) }
    ensures { held.new ≡ take (most_held - 1) (take count held.old ++ s.now) ++ drop (most_held - 1) held.old }
{
    if count < LAST_HELD {
        text::put(held, count, &s[..LAST_HELD - count]);
    }
}

// Adds s to the partial line in the first `count` bytes, as far as it is held, and answers how many bytes are held then.
pub fn append(held: &mut [u8], count: usize, s: &[u8]) -> usize
    requires { (length held.old ≡ most_held) × (count ≤ most_held) }
    ensures { Appended held.old count s.now held.new result }
{
    let room = MOST_HELD - count;
    if s.len() <= room {
        text::put(held, count, s);
        return count + s.len();
    }
    fill(held, count, s);
    held[LAST_HELD] = s[s.len() - 1];
    MOST_HELD
}
