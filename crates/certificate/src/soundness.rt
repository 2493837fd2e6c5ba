// A certificate, as it is given and with its law known, and whether it is sound.
ghost use Rattle.std.specs.Prelude.{◌≡◌};
ghost use Rattle.quantity.specs.Outcomes.{Follows};
ghost use Rattle.certificate.specs.Certificate.{place_kept, aluminium_kept, sound, stated, given_rule};

use deviation::{LARGEST_COEFFICIENT, Places, within};
use law::{Cell, Law, Name};
use quantity::{Ratio, Refusal};

// A certificate as it is given: the name of its law and its places. The two are not one generic struct: no function would be shared.
#[derive(Clone, Copy, Debug, PartialEq, Eq)]
pub struct Given {
    pub law: Name,
    pub places: Places,
}

// A certificate whose law is known.
#[derive(Clone, Copy, Debug, PartialEq, Eq)]
pub struct Certificate {
    pub law: Law,
    pub places: Places,
}

// Whether a place keeps its limit under a law that uses so many, from place 0.
fn place_kept(used: u64, place: u64, value: i64) -> bool
    ensures { result ≡ place_kept used place value }
{
    let limit = if place < used { LARGEST_COEFFICIENT } else { 0 };
    value.unsigned_abs() <= limit
}

fn aluminium_kept(law: Law, wal: Ratio) -> bool
    ensures { result ≡ aluminium_kept law wal.0 }
{
    if law.reaches_silver() {
        return within(Cell::Al.reference(), wal);
    }
    wal.0 == 0
}

impl Certificate {
    // Whether each used place keeps its limit and each unused one is 0.
    pub fn is_sound(self) -> bool
        ensures { result ≡ sound self }
    {
        let p = self.places;
        let used = self.law.coefficients();
        place_kept(used, 0, p.a)
            & place_kept(used, 1, p.b)
            & place_kept(used, 2, p.c)
            & place_kept(used, 3, p.d)
            & aluminium_kept(self.law, p.wal)
    }
}

impl Given {
    // The certificate with its law known, or refused where its law is unknown or it is not sound.
    pub fn accept(self) -> Result<Certificate, Refusal>
        ensures { Follows (given_rule self) (stated result) }
    {
        let law = Law::named(self.law).ok_or(Refusal::NameUnknown)?;
        let certificate = Certificate {
            law,
            places: self.places,
        };
        if !certificate.is_sound() {
            return Err(Refusal::BeyondLimit);
        }
        Ok(certificate)
    }
}
