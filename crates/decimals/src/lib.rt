// Decimal numbers as people write them: reading them in units of their last place, and writing numbers.

#![tactic(auto)]

mod kinds;
mod reading;
mod writing;

pub use kinds::{Misread, Places};
pub use reading::read;
pub use writing::{Fixed, Grouped};
