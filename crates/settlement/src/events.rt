// What is settled, and what comes of it.

use calendar::{Day, Quarter};
use programme::{Code, Dispatch, Terms};
use refusal::Refusal;

// What an account agreed on, and under which programme.
#[derive(Clone, Copy, PartialEq, Eq, Debug)]
pub struct Agreement {
    pub code: Code,
    pub account: u8,
    pub terms: Terms,
}

// A day on which the account was called.
#[derive(Clone, Copy, PartialEq, Eq, Debug)]
pub struct Event {
    pub day: Day,
    pub start: Quarter,
    pub dispatch: Dispatch,
}

// What a month comes to, in dollars.
#[derive(Clone, Copy, PartialEq, Eq, Debug)]
pub struct Totals {
    pub events: u8,
    pub missed: u8,
    pub basic: u64,
    pub credits: u64,
    pub surcharges: u64,
}

// Which event was refused, counted from 0, or none where the agreement was; and why.
#[derive(Clone, Copy, PartialEq, Eq, Debug)]
pub struct Refused {
    pub event: Option<usize>,
    pub refusal: Refusal,
}
