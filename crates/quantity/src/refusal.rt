// Why there is no answer.
ghost use Rattle.std.specs.Prelude.{◌≡◌};
ghost use Rattle.quantity.specs.Refusals.{number_of};

// Why there is no answer: one case for each row of the scope document's table, then those of the requests, each with the number under which it is given.
#[derive(Clone, Copy, Debug, PartialEq, Eq)]
pub enum Refusal {
    ResistanceOutside = 1,
    RatioAbove = 2,
    NameUnknown = 3,
    CellNotMeasured = 4,
    PurityCellNotMeasured = 5,
    Impure = 6,
    BeyondLimit = 7,
    BelowRange = 8,
    AboveRange = 9,
    WrongHeader = 10,
    BufferShort = 11,
    LineTooLong = 12,
    WrongFieldCount = 13,
    FieldBroken = 14,
    NumberUnfit = 17,
    SerialClash = 18,
    TooFewPlaces = 19,
    NotLive = 20,
    TableBad = 23,
}

impl Refusal {
    // The number under which it is given.
    pub fn number(self) -> u8
        ensures { result ≡ number_of self }
    {
        self as u8
    }
}
