// The bounds that several parts keep, each said once.

#![tactic(auto)]

// The accounts of a book, numbered from 0.
pub const ACCOUNTS: u8 = 8;

// The quarters of an hour in a day.
pub const QUARTERS: usize = 96;

// The most that a reading can be, in watts.
pub const MOST_WATTS: u32 = 200_000_000;
