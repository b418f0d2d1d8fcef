// Demand response programmes: what an account agrees on, the fixed figures of a programme, its measure of readings, and its amounts.

#![tactic(auto)]

mod codes;
mod dispatches;
mod figures;
mod formulas;
mod letters;
mod measures;
mod payables;
mod programmes;
mod ranges;
mod terms;

pub use codes::{Code, UnknownProgramme};
pub use dispatches::Dispatch;
pub use figures::{Figures, Fold};
pub use formulas::{below_lowest, rate, saving};
pub use measures::{Measure, Peak, Sum};
pub use programmes::{Economic, JointBidding, Programme, Reliable};
pub use ranges::lawful_price;
pub use terms::Terms;
