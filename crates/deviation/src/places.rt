// The places of a certificate.
use quantity::Ratio;

// Coefficients in units of 10^-11, and W(Al) for ag. Unused places hold 0: a certificate
// with another there is not sound.
#[derive(Clone, Copy, Debug, PartialEq, Eq)]
pub struct Places {
    pub a: i64,
    pub b: i64,
    pub c: i64,
    pub d: i64,
    pub wal: Ratio,
}
