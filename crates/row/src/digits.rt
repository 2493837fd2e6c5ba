// How many digits a number in a list may have: one that is no resistance, and a resistance.

pub const DIGITS: usize = 13;

pub const RESISTANCE_DIGITS: usize = 14;
