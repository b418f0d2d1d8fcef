// Lists of a few values that take no memory of their own.

#![tactic(auto)]

mod lists;
mod methods;

pub use lists::Short;
