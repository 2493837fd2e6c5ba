// A name of up to eight letters as a number: its ASCII bytes are digits in base 256, the first letter highest. No law has the name 0. It
// is a number and no enum of the laws, since a name that no law has can be given, and is refused.
#[derive(Clone, Copy, Debug, PartialEq, Eq)]
pub struct Name(pub u64);
