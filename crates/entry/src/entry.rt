// An entry, and how two entries of one thermometer become one.
ghost use Rattle.std.specs.Prelude.{◌≡◌};
ghost use Rattle.entry.specs.Entry.{is_unknown, is_unsound, is_bad, is_free, is_live, clash, free, merged as merged_of, joined as joined_of, raised as raised_to};

use certificate::{Certificate, Given};
use deviation::Places;
use law::{Law, Name};
use quantity::Ratio;

// A thermometer's number. 0 names none: tables and lists are given so, and `is_free` and the refusal 17 are defined by it.
#[derive(Clone, Copy, Debug, PartialEq, Eq)]
pub struct Thermometer(pub u64);

// A certificate's serial. A mark is the serial up to which certificates are withdrawn.
#[derive(Clone, Copy, Debug, PartialEq, Eq, PartialOrd, Ord)]
pub struct Serial(pub u64);

// Number 0 is a free place, whose rest is not looked at. A lent table is given so.
#[derive(Clone, Copy, Debug, PartialEq, Eq)]
pub struct Entry {
    pub number: Thermometer,
    pub serial: Serial,
    pub mark: Serial,
    pub certificate: Given,
}

// Whether no law has a certificate's name: it would be refused by 3.
pub fn is_unknown(k: Given) -> bool
    ensures { result ≡ is_unknown k }
{
    Law::named(k.law).is_none()
}

// Whether a certificate's law is known and it is not sound: it would be refused by 7.
pub fn is_unsound(k: Given) -> bool
    ensures { result ≡ is_unsound k }
{
    Law::named(k.law).is_some_and(|law| {
        let places = k.places;
        !Certificate { law, places }.is_sound()
    })
}

// Whether a certificate would be refused, by 3 or by 7.
pub fn is_bad(k: Given) -> bool
    ensures { result ≡ is_bad k }
{
    is_unknown(k) | is_unsound(k)
}

impl Entry {
    // A free place.
    pub fn free() -> Entry
        ensures { result ≡ free }
    {
        Entry {
            number: Thermometer(0),
            serial: Serial(0),
            mark: Serial(0),
            certificate: Given {
                law: Name(0),
                places: Places {
                    a: 0,
                    b: 0,
                    c: 0,
                    d: 0,
                    wal: Ratio(0),
                },
            },
        }
    }

    pub fn is_free(self) -> bool
        ensures { result ≡ is_free self }
    {
        self.number.0 == 0
    }

    // Whether the serial of a thermometer's certificate is above its mark.
    pub fn is_live(self) -> bool
        ensures { result ≡ is_live self }
    {
        !self.is_free() & (self.mark.0 < self.serial.0)
    }

    // Whether an entry has the serial of the one that is held, and another certificate.
    pub fn clashes(self, e: Entry) -> bool
        ensures { result ≡ clash self e }
    {
        !self.is_free() & (self.serial.0 == e.serial.0) & (self.certificate != e.certificate)
    }

    // Two entries of one thermometer: the higher serial with its certificate, and the higher mark.
    fn merged(self, e: Entry) -> Entry
        ensures { result ≡ merged_of self e }
    {
        let mark = self.mark.max(e.mark);
        if self.serial < e.serial {
            return Entry {
                mark,
                number: self.number,
                ..e
            };
        }
        Entry { mark, ..self }
    }

    // What a place holds once an entry has come in: the entry where it was free, else the two merged.
    pub fn joined(self, e: Entry) -> Entry
        ensures { result ≡ joined_of self e }
    {
        if self.is_free() {
            return e;
        }
        self.merged(e)
    }

    // The entry with its mark at a serial, or left where it is higher.
    pub fn raised(self, serial: Serial) -> Entry
        ensures { result ≡ raised_to self serial }
    {
        Entry {
            mark: self.mark.max(serial),
            ..self
        }
    }
}
