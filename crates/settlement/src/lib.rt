// One account's month: the checks of its agreement and its events, and the amounts.

#![tactic(auto)]

mod called;
mod checks;
mod events;
mod totals;

pub use called::Called;
pub use events::{Agreement, Event, Refused, Totals};
pub use totals::{settle_called, settle_month, worked_amounts, worked_figures};
