// Every numbered reason for which a call is refused, with the places it names.

#![tactic(auto)]

mod refusals;
mod sentences;
mod tells;

pub use refusals::{Answer, Refusal};
