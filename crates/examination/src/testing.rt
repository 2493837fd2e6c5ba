// What the tests of a table and of an imported list have met so far, and with one entry more.
ghost use Rattle.std.specs.Prelude.{◌≡◌, ◌<◌, ◌+◌, ◌-◌, ◌^◌};
ghost use Rattle.examination.specs.Testing.{seen as seen_with, noted as noted_with, nothing_seen, nothing_noted, left_after};

use entry::{Entry, is_bad, is_unknown, is_unsound};

// Of a table: whether it holds a thermometer twice or a bad certificate, and how many places are free. In `Seen` and in `Noted` a
// flag is no error yet: all entries are looked at before the first refusal, in the fixed order, is taken.
#[derive(Clone, Copy)]
pub struct Seen {
    pub bad: bool,
    pub places: u64,
}

// Of a list: whether some certificate is of unknown law, or not sound; whether some thermometer is 0 or there twice; whether some serial has two
// certificates; whether there was no place for some new thermometer; and how many places are left.
#[derive(Clone, Copy)]
pub struct Noted {
    pub unknown: bool,
    pub unsound: bool,
    pub unfit: bool,
    pub clashing: bool,
    pub short: bool,
    pub left: u64,
}

pub fn nothing_seen() -> Seen
    ensures { result ≡ nothing_seen }
{
    Seen {
        bad: false,
        places: 0,
    }
}

// With the entry at a place of the table, `first` being the first place that has its number.
pub fn see(s: Seen, e: Entry, at: usize, first: usize) -> Seen
    requires { s.places + 1 < 2 ^ 64 }
    ensures { result ≡ seen_with s e at first }
{
    if e.is_free() {
        return Seen {
            places: s.places + 1,
            ..s
        };
    }
    Seen {
        bad: s.bad | (first != at) | is_bad(e.certificate),
        ..s
    }
}

pub fn nothing_noted(places: u64) -> Noted
    ensures { result ≡ nothing_noted places }
{
    Noted {
        unknown: false,
        unsound: false,
        unfit: false,
        clashing: false,
        short: false,
        left: places,
    }
}

fn left_after(left: u64, taken: bool) -> u64
    ensures { result ≡ left_after left taken }
{
    if taken {
        return left.saturating_sub(1);
    }
    left
}

// With the entry at a place of the list, `first` being the first place there that has its number, and `held` what the table has of the thermometer.
pub fn note(s: Noted, e: Entry, at: usize, first: usize, held: Entry) -> Noted
    ensures { result ≡ noted_with s e at first held }
{
    let is_new = held.is_free();
    Noted {
        unknown: s.unknown | is_unknown(e.certificate),
        unsound: s.unsound | is_unsound(e.certificate),
        unfit: s.unfit | e.is_free() | (first != at),
        clashing: s.clashing | held.clashes(e),
        short: s.short | (is_new & (s.left == 0)),
        left: left_after(s.left, is_new),
    }
}
