// A month's sheet of one account: reading it, and settling it.

#![tactic(auto)]

mod reading;
mod settling;
mod sheets;

pub use sheets::Sheet;
