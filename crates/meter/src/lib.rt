// Quarter-hour demand: what a meter is, a table of readings, and a group of accounts that reads as one.

#![tactic(auto)]

mod filing;
mod groups;
mod layouts;
mod lent;
mod meters;
mod tables;

pub use filing::MARK;
pub use groups::{Group, GroupMeter};
pub use layouts::Layout;
pub use meters::{LIMIT, Meter, lawful};
pub use tables::Table;
