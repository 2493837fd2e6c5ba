// What the scans of fields share: where a field ends, and what one that breaks its rule says.
ghost use Rattle.std.specs.Prelude.{◌≡◌, false, ◌+◌, ◌<◌, ◌≤◌, ◌^◌, length};
ghost use Rattle.text.specs.Scanned.{closes_at, nowhere, scanned_if};

// The most bytes that a line may have, without its CRLF.
pub const LONGEST_LINE: usize = 200;

// What a field says, 0 where it breaks its rule, and where the next field starts.
#[derive(Clone, Copy)]
pub struct Scanned<T> {
    pub value: T,
    pub next: usize,
}

impl<T> Scanned<T> {
    // The same of a field that stands so many bytes further on. The scans at an offset have this in common and no helper with a closure: its contract would say
    // of each scan again what that one promises.
    pub(crate) fn further(self, by: usize) -> Scanned<T>
        requires { by + self.next < 2 ^ 64 }
        ensures { result ≡ record self { next = by + self.next } }
    {
        Scanned {
            next: by + self.next,
            ..self
        }
    }
}

// Where the next field would start after one that breaks its rule: past every offset, so that the later ones break theirs too.
pub fn no_field(s: &[u8]) -> usize
    ensures { result ≡ nowhere (length s.now) }
{
    s.len() + 2
}

// A field of at least one byte ends at i: before a comma, or where the line ends.
pub fn closes(s: &[u8], i: usize) -> bool
    ensures { result ≡ closes_at i s.now }
{
    0 < i && (i >= s.len() || s[i] == b',')
}

// What a field that breaks its rule says.
pub fn broken<T>(s: &[u8], zero: T) -> Scanned<T>
    ensures { result ≡ scanned_if zero false zero 0 s.now }
{
    Scanned {
        value: zero,
        next: no_field(s),
    }
}

// What a field says whose bytes before i keep its rule: `value`, if it ends there.
pub fn ended(s: &[u8], i: usize, value: u64) -> Scanned<u64>
    requires { i ≤ length s.now }
    ensures { result ≡ scanned_if 0 (closes_at i s.now) value i s.now }
{
    if closes(s, i) {
        return Scanned { value, next: i + 1 };
    }
    broken(s, 0)
}
