// The statements of a month's sheet as words, and what may be wrong with them.

#![tactic(auto)]

mod blames;
mod faults;
mod keys;
mod sentences;
mod statements;
mod words;

pub use blames::blame;
pub use faults::{Complaint, LineFault, SheetFault};
pub use keys::Word;
pub use statements::{EventWords, Statement, parse};
